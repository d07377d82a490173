// The table of places: what lies in each of the 256 places of the area.
ghost use Rattle.std.specs.Prelude.{◌≡◌, ◌*◌, ◌≤◌, length, set};
ghost use Rattle.lists.specs.Bytes.{window};
ghost use Rattle.wire.specs.Layout.{packet_size};
ghost use Rattle.group.specs.Places.{place, freed_entry, freed};

// The lowest place with an entry; behind the last where there is none.
pub(crate) fn place_of(places: &[u32], x: u32) -> usize
    ensures value { result ≡ place x places.now }
    ensures within { result ≤ length places.now }
{
    for (i, &p) in places.iter().enumerate() {
        if p == x {
            return i;
        }
    }
    places.len()
}

// An entry once number a is freed.
fn freed_entry(a: u32, x: u32) -> u32
    ensures { result ≡ freed_entry a x }
{
    if x / 256 == a { 0 } else { x }
}

// The places of number a are free.
pub(crate) fn free(places: &mut [u32], a: u32)
    ensures { places.new ≡ freed a places.old }
{
    for x in places.iter_mut() {
        *x = freed_entry(a, *x);
    }
}

// An entry in a place; behind the last nothing is written.
pub(crate) fn put_entry(places: &mut [u32], at: usize, x: u32)
    ensures { places.new ≡ set places.old at x }
{
    if places.len() <= at {
        return;
    }
    places[at] = x;
}

// The bytes of a place, 0 behind the area's end.
pub(crate) fn part_at(area: &[u8], at: usize) -> [u8; 45]
    requires { at ≤ 256 }
    ensures { result ≡ window packet_size area.now (packet_size * at) }
{
    lists::window(area, 45 * at)
}
