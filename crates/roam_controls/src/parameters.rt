//! The parameters of a control sequence.
ghost use Rattle.std.specs.Prelude.{◌≡◌};
ghost use Rattle.roam_controls.specs.Parameters.{first, second, count};

/// The first parameter; none is 0 (ECMA-48, section 5.4.2).
pub fn first(params: &[u16]) -> u16
    ensures first { result ≡ first params.now }
{
    match params {
        [] => 0,
        [param, ..] => *param,
    }
}

/// The second parameter; none is 0.
pub fn second(params: &[u16]) -> u16
    ensures second { result ≡ second params.now }
{
    match params {
        [_, param, ..] => *param,
        _ => 0,
    }
}

/// The first parameter as a count or a coordinate: none and 0 are 1.
pub fn first_count(params: &[u16]) -> u16
    ensures count { result ≡ count (first params.now) }
{
    first(params).max(1)
}

/// The second parameter as a coordinate: none and 0 are 1.
pub fn second_count(params: &[u16]) -> u16
    ensures count { result ≡ count (second params.now) }
{
    second(params).max(1)
}
