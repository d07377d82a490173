// Slots held, by box and month: the tally by value, and what an epoch adds to it.
#![tactic(auto)]

ghost use Rattle.std.specs.Prelude.{◌≡◌, true, ◌≤◌, ◌<◌};
ghost use Rattle.tally.specs.Counting.{top_epochs, first_tally, tally_ok, tally_full, added_by, counted_by};

// Epochs counted, the site's slots, and by node the slots that it held and the epochs in which it held one. The fields lie as C has them.
// Kept: two lists and not one of pairs, since `include/hydra.h` has this layout.
#[repr(C)]
#[derive(Clone, Copy)]
pub struct Tally {
    pub epochs: u32,
    pub total: u32,
    pub slots: [u32; 32],
    pub held: [u32; 32],
}

impl Tally {
    // The most epochs that are counted.
    pub const EPOCHS: u32 = 100000;

    // A tally set anew.
    pub fn first() -> Tally
        ensures { result ≡ first_tally }
    {
        Tally {
            epochs: 1,
            total: 0,
            slots: [0; 32],
            held: [0; 32],
        }
    }

    // Whether it has counted all the epochs that it can.
    pub fn is_full(self) -> bool
        ensures { result ≡ tally_full self }
    {
        self.epochs == Tally::EPOCHS
    }

    // What is not refused as 14.
    pub fn is_valid(self) -> bool
        ensures { result ≡ tally_ok self }
    {
        let total = u64::from(self.total);
        let mut ok = true;
        let mut sum = 0;
        for (i, slots) in self.slots.iter().enumerate() {
            let held = self.held[i];
            ok &= (held <= self.epochs) & (u64::from(*slots) <= 80 * u64::from(held));
            sum += u64::from(*slots);
        }
        (self.epochs <= Tally::EPOCHS) & (ok & (total == sum))
    }

    // One epoch more, from how many slots each node holds in it.
    fn added(self, numbers: [u8; 32]) -> Tally
        requires { (tally_ok self ≡ true) × (self.epochs < top_epochs) }
        ensures { result ≡ added_by self numbers }
    {
        let mut slots = self.slots;
        let mut held = self.held;
        let mut total = self.total;
        for (i, n) in numbers.iter().enumerate() {
            slots[i] += u32::from(*n);
            held[i] += u32::from(0 < *n);
            total += u32::from(*n);
        }
        Tally {
            epochs: self.epochs + 1,
            total,
            slots,
            held,
        }
    }

    // The epoch is counted that begins with these numbers of slots, by node; a tally that is full, or not valid, stays as it is.
    pub fn counted(self, numbers: [u8; 32]) -> Tally
        ensures { result ≡ counted_by self numbers }
    {
        if self.is_valid() && !self.is_full() {
            return self.added(numbers);
        }
        self
    }
}
