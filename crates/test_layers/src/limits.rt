//! Limits at their greatest and one past it.
ghost use Rattle.std.specs.Prelude.{◌<◌};

use ipc_model::Limits;

// 2^28 bytes of metadata, 2^42 of body, 2^31 - 1 slots, 2^20 fields, a depth of 64, 2^30 bytes of
// text and 2^24 pairs.
const GREATEST: [u64; 7] = [
    268_435_456,
    4_398_046_511_104,
    2_147_483_647,
    1_048_576,
    64,
    1_073_741_824,
    16_777_216,
];

fn limits_of(values: [u64; 7]) -> Option<Limits> {
    let [metadata, body, slots, fields, depth, text, pairs] = values;
    Limits::new(metadata, body, slots, fields, depth, text, pairs)
}

fn values_of(limits: &Limits) -> [u64; 7] {
    [
        limits.metadata,
        limits.body,
        limits.slots,
        limits.fields,
        limits.depth,
        limits.text,
        limits.pairs,
    ]
}

// The standard limits with another value in this place.
fn standard_but(place: usize, value: u64) -> Option<Limits>
    requires { place < 7 }
{
    let mut values = values_of(&Limits::standard());
    values[place] = value;
    limits_of(values)
}

// Whether a limit may have its greatest value, and no greater one.
fn is_greatest(place: usize) -> bool
    requires { place < 7 }
{
    let greatest = GREATEST[place];
    standard_but(place, greatest).is_some()
        && standard_but(place, greatest.saturating_add(1)).is_none()
}

#[test]
fn each_limit(rt: HostRuntime) {
    for place in 0..7 {
        assert!(rt; is_greatest(place), "limit {place}");
    }
    assert!(rt; Limits::standard().covers(&Limits::standard()));
}
