// The powers of ten that a real64 holds exactly. A match becomes a table in memory; an array would be written out for each literal.
ghost use Rattle.std.specs.Prelude.{◌≡◌, ◌<◌};
ghost use Rattle.real.specs.Real.{power_of_ten};

pub(crate) fn power_of_ten(k: usize) -> f64
    requires { k < 23 }
    ensures { result ≡ power_of_ten k }
{
    match k {
        0 => 1.0,
        1 => 10.0,
        2 => 100.0,
        3 => 1000.0,
        4 => 10000.0,
        5 => 100000.0,
        6 => 1000000.0,
        7 => 10000000.0,
        8 => 100000000.0,
        9 => 1000000000.0,
        10 => 10000000000.0,
        11 => 100000000000.0,
        12 => 1000000000000.0,
        13 => 10000000000000.0,
        14 => 100000000000000.0,
        15 => 1000000000000000.0,
        16 => 10000000000000000.0,
        17 => 100000000000000000.0,
        18 => 1000000000000000000.0,
        19 => 10000000000000000000.0,
        20 => 100000000000000000000.0,
        21 => 1000000000000000000000.0,
        _ => 10000000000000000000000.0,
    }
}
