// Specification, 1 Figures: the tests of a site's figures, and of a node's number and flags.
ghost use Rattle.std.specs.Prelude.{◌≡◌};
ghost use Rattle.node.specs.Figures.{no_config, config_ok, is_node, flags_ok, is_last, enough, too_few};

use crate::{Config, Core, Setup};

impl Config {
    // Those of no site.
    pub fn none() -> Config
        ensures { result ≡ no_config }
    {
        Config {
            nodes: 0,
            slots: 0,
            rounds: 0,
            min_heard: 0,
            split: 0,
        }
    }

    // N, K and F are within the figures of the node type, `heard` is 1 to F, and `split` 0 or 1.
    #[tactic(auto, unfolding(crate::specs::Figures::config_ok))]
    pub fn config_ok(self) -> bool
        ensures { result ≡ config_ok self }
    {
        let nodes = (1 <= self.nodes) & (self.nodes <= Core::NODES);
        let slots = (1 <= self.slots) & (self.slots <= Core::SLOTS);
        let rounds = (1 <= self.rounds) & (self.rounds <= Core::ROUNDS);
        let heard = (1 <= self.min_heard) & (self.min_heard <= self.rounds);
        let split = self.split <= 1;
        nodes & (slots & (rounds & (heard & split)))
    }

    // The round at a place is the epoch's last.
    pub fn is_last(self, place: u32) -> bool
        ensures { result ≡ is_last self place }
    {
        self.rounds.saturating_sub(place) <= 1
    }

    // Line 24: a set of nodes is enough for a close.
    pub fn is_enough(self, w: u32) -> bool
        ensures { result ≡ enough self w }
    {
        (self.split == 1) | membership::majority::is_majority(self.nodes, w)
    }

    // Line 47: it is too few for a schedule to last.
    pub fn is_too_few(self, w: u32) -> bool
        ensures { result ≡ too_few self w }
    {
        (self.split != 1) & membership::majority::is_minority(self.nodes, w)
    }
}

impl Setup {
    // The number is that of one of the N nodes.
    pub fn is_node(self) -> bool
        ensures { result ≡ is_node self }
    {
        (1 <= self.node) & (self.node <= self.config.nodes)
    }

    // No flag from N up, and the own flag.
    #[tactic(auto, unfolding(crate::specs::Figures::flags_ok))]
    pub fn flags_ok(self, flags: u32) -> bool
        ensures { result ≡ flags_ok self flags }
    {
        let few = words::below(flags, self.config.nodes);
        let own = words::member(flags, self.node);
        few & (!self.is_node() | own)
    }
}
