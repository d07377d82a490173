// Algorithm 1, lines 5 to 21: the start of a round, sending, hearing.
ghost use Rattle.std.specs.Prelude.{◌≡◌};
ghost use Rattle.membership.specs.requests.Requests.{requesters};
ghost use Rattle.node.specs.Negotiation.{opened, packet_of, merges, noted, joined, heard_node, hear_answer};
ghost use Rattle.node.specs.Core.{bare, core_of};

use crate::refusals::negotiation_answer;
use crate::{Answer, Core, Packet, Refusal, Round, Sent};

// A round as it starts: lines 5 to 8.
#[tactic(auto, unfolding(crate::specs::Negotiation::opened))]
pub(crate) fn opening(node: u32, version: u32, flags: u32, request: u8) -> Round
    ensures { result ≡ opened node version flags request }
{
    Round {
        merged: flags,
        known: membership::requests::only(node, request),
        lowest: version,
        highest: version,
        heard: 0,
    }
}

impl Round {
    // Line 14: whoever has a request in the packet enters C_r. `from` has them.
    #[tactic(auto, unfolding(crate::specs::Negotiation::noted))]
    fn note(mut self, q: Packet, from: u32) -> Round
        requires { from ≡ requesters q.requests }
        ensures { result ≡ noted self q }
    {
        self.heard |= from;
        self
    }

    // Lines 14 and 19 to 21.
    #[tactic(auto, unfolding(crate::specs::Negotiation::joined))]
    fn join(mut self, q: Packet, from: u32) -> Round
        requires { from ≡ requesters q.requests }
        ensures { result ≡ joined self q }
    {
        self.merged |= q.flags;
        self.known = membership::requests::union(self.known, q.requests);
        self.lowest = self.lowest.min(q.lowest);
        self.highest = self.highest.max(q.highest);
        self.heard |= from;
        self
    }
}

impl Core {
    // Line 10: the packet of this moment.
    #[tactic(auto, unfolding(crate::specs::Negotiation::packet_of))]
    pub fn send(self) -> Sent
        ensures { result ≡ record { packet = packet_of (bare self); core = self } }
    {
        let r = self.round;
        let requests = r.known;
        Sent {
            packet: Packet {
                sender: self.setup.node,
                lowest: r.lowest,
                highest: r.highest,
                flags: r.merged,
                requests,
            },
            core: self,
        }
    }

    // Line 16.
    #[tactic(auto, unfolding(crate::specs::Negotiation::merges))]
    fn merges(self, q: Packet) -> bool
        ensures { result ≡ merges (bare self) q }
    {
        let there = words::member(self.round.merged, q.sender);
        let here = words::member(q.flags, self.setup.node);
        there & here
    }

    // The answer to a packet.
    #[tactic(auto, unfolding(crate::specs::Negotiation::hear_answer))]
    pub fn hear_answer(self, q: Packet) -> Answer
        ensures { result ≡ hear_answer (bare self) q }
    {
        negotiation_answer(self.phase)?;
        if q.sender == self.setup.node {
            return Err(Refusal::OwnPacket);
        }
        let one = membership::requests::agree(self.round.known, q.requests);
        if self.merges(q) & !one {
            return Err(Refusal::TwoRequests);
        }
        Ok(())
    }

    // Lines 12 to 21, where the packet was not refused. Line 18: the nodes with a request in the packet enter I_e.
    #[tactic(auto, unfolding(crate::specs::Negotiation::heard_node, crate::specs::Negotiation::interacted))]
    pub fn hear(mut self, q: Packet) -> Core
        ensures { result ≡ core_of (heard_node (bare self) q) }
    {
        let from = membership::requests::requesters(q.requests);
        if self.merges(q) {
            self.round = self.round.join(q, from);
            self.interactions |= from;
        } else {
            self.round = self.round.note(q, from);
        }
        self
    }
}
