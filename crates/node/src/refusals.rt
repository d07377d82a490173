// Which steps a node refuses: by its phase, and by the numbers of a demand or a beginning.
ghost use Rattle.std.specs.Prelude.{◌≡◌, cond, ◌&&◌, leb};
ghost use Rattle.allotment.specs.Allotment.{top_request};
ghost use Rattle.node.specs.Figures.{config_ok, is_node};
ghost use Rattle.node.specs.Negotiation.{in_negotiation};
ghost use Rattle.node.specs.Distribution.{may_take};
ghost use Rattle.node.specs.End.{may_end};
ghost use Rattle.node.specs.Answers.{Done, OutOfRange, NoSuchNode};
ghost use Rattle.node.specs.Begin.{start_answer, restart_answer};
ghost use Rattle.node.specs.Steps.{want_answer};

use crate::{Answer, Phase, Refusal, Setup, is_negotiation};

// A send, a hear and a close: 4 outside negotiation.
pub fn negotiation_answer(phase: Phase) -> Answer
    ensures { result ≡ in_negotiation phase }
{
    if is_negotiation(phase) {
        Ok(())
    } else {
        Err(Refusal::WrongPhase)
    }
}

// 4 outside distribution, 10 where the taker sends.
pub fn take_answer(phase: Phase) -> Answer
    ensures { result ≡ may_take phase }
{
    match phase {
        Phase::Distribution { sends: false } => Ok(()),
        Phase::Distribution { sends: true } => Err(Refusal::WrongSender),
        Phase::Waiting | Phase::Negotiation => Err(Refusal::WrongPhase),
    }
}

// 4 in negotiation.
pub fn end_answer(phase: Phase) -> Answer
    ensures { result ≡ may_end phase }
{
    if is_negotiation(phase) {
        Err(Refusal::WrongPhase)
    } else {
        Ok(())
    }
}

fn is_demand(demand: u32) -> bool
    ensures { result ≡ leb demand top_request }
{
    demand <= u32::from(allotment::TOP_REQUEST)
}

// 2 above the greatest demand.
#[tactic(auto, unfolding(crate::specs::Steps::want_answer))]
pub fn want_answer(demand: u32) -> Answer
    ensures { result ≡ want_answer demand }
{
    if is_demand(demand) {
        Ok(())
    } else {
        Err(Refusal::OutOfRange)
    }
}

impl Setup {
    // The answer to a beginning: first on its numbers, then on the node.
    fn begin_answer(self, numbers: bool) -> Answer
        ensures { result ≡ cond (config_ok self.config && numbers)
            (cond (is_node self) Done NoSuchNode) OutOfRange }
    {
        if !(self.config.config_ok() & numbers) {
            return Err(Refusal::OutOfRange);
        }
        if self.is_node() {
            Ok(())
        } else {
            Err(Refusal::NoSuchNode)
        }
    }

    // 2 on the figures, the version, the demand and the flags; 3 on the node.
    #[tactic(auto, unfolding(crate::specs::Begin::start_answer))]
    pub fn start_answer(self, version: u32, flags: u32, demand: u32) -> Answer
        ensures { result ≡ start_answer self version flags demand }
    {
        let numbers = (version <= 1) & (is_demand(demand) & self.flags_ok(flags));
        self.begin_answer(numbers)
    }

    // 2 on the figures, the place and the flags; 3 on the node.
    #[tactic(auto, unfolding(crate::specs::Begin::restart_answer))]
    pub fn restart_answer(self, flags: u32, place: u32) -> Answer
        ensures { result ≡ restart_answer self flags place }
    {
        let numbers = (place < self.config.rounds) & self.flags_ok(flags);
        self.begin_answer(numbers)
    }
}
