// Which event it is, and where its node stands.
ghost use Rattle.std.specs.Prelude.{◌≡◌, ◌<◌};
ghost use Rattle.site.specs.Events.{is_close, is_end};
ghost use Rattle.site.specs.Members.{node_index};

use crate::Event;

pub fn is_close(e: Event) -> bool
    ensures { result ≡ is_close e }
{
    e == Event::Close
}

pub fn is_end(e: Event) -> bool
    ensures { result ≡ is_end e }
{
    e == Event::End
}

// Where the member of number j stands; the first stands in for a number of none.
pub fn node_index(j: u32) -> usize
    ensures value { result ≡ node_index j }
    ensures within { result < 32 }
{
    if j <= 32 {
        membership::requests::index_of(j)
    } else {
        0
    }
}
