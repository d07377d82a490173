// Event lines: an event word and two numbers; and an event from its number and these two.
ghost use Rattle.std.specs.Prelude.{◌≡◌};
ghost use Rattle.script.specs.events.Events.{word_number, event_at, event_of};

use site::Event;

// The number of an event's word, by the table of events; 0 for an unknown word.
// Kept: numbers, since hydra_site_event lends an event by its number.
#[tactic(auto, unfolding(crate::specs::events::Events::number_from))]
fn word_number(w: &[u8]) -> u32
    ensures { result ≡ word_number w.now }
{
    if lists::equal(w, b"send") {
        1
    } else if lists::equal(w, b"hear") {
        2
    } else if lists::equal(w, b"close") {
        3
    } else if lists::equal(w, b"take") {
        4
    } else if lists::equal(w, b"end") {
        5
    } else if lists::equal(w, b"want") {
        6
    } else if lists::equal(w, b"crash") {
        7
    } else if lists::equal(w, b"restart") {
        8
    } else {
        0
    }
}

// The event of a number and the two numbers behind it; where the table has a 0, any other number is malformed.
pub fn event_at(n: u32, x: u32, y: u32) -> Option<Event>
    ensures { result ≡ event_at n x y }
{
    match (n, x, y) {
        (1, _, 0) => Some(Event::Send(x)),
        (2, _, _) => Some(Event::Hear(x, y)),
        (3, 0, 0) => Some(Event::Close),
        (4, _, _) => Some(Event::Take(x, y)),
        (5, 0, 0) => Some(Event::End),
        (6, _, _) => Some(Event::Want(x, y)),
        (7, _, 0) => Some(Event::Crash(x)),
        (8, _, _) => Some(Event::Restart(x, y)),
        _ => None,
    }
}

// What an event line says: a word and two numbers, one space between.
pub fn event_line(s: &[u8]) -> Option<Event>
    ensures { result ≡ event_of s.now }
{
    let e = text::find(s, 32);
    if e == s.len() {
        return None;
    }
    let n = word_number(&s[..e]);
    let [x, y] = crate::lines::numbers::<2>(&s[e + 1..])?;
    event_at(n, x, y)
}
