// Each kind's fields by their numbers. Told by tests: a constant array that is looked up by a variable is laid out anew at each look.
ghost use Rattle.std.specs.Prelude.{◌≡◌, ◌≤◌, ◌<◌, length};
ghost use Rattle.form.specs.Layout.{conversion, stock, harvest, parameters, abandoned, savanna, soil, crop, layout, field_at, numbers_of};

use crate::Field;

const ID: Field = Field {
    zeros: 0,
    width: 4,
    limit: 4294967295,
};

const AREA: Field = Field {
    zeros: 0,
    width: 4,
    limit: 1000000,
};

const DENSITY: Field = Field {
    zeros: 0,
    width: 2,
    limit: 10000,
};

const FRACTION: Field = Field {
    zeros: 0,
    width: 2,
    limit: 1000,
};

const UNIT_CODE: Field = Field {
    zeros: 0,
    width: 1,
    limit: 1,
};

const RATE: Field = Field {
    zeros: 1,
    width: 2,
    limit: 10000,
};

const AMOUNT: Field = Field {
    zeros: 0,
    width: 4,
    limit: 10000000,
};

const TONNES_PER_M3: Field = Field {
    zeros: 0,
    width: 2,
    limit: 10000,
};

const GROWTH_RATE: Field = Field {
    zeros: 0,
    width: 2,
    limit: 10000,
};

const FUELWOOD: Field = Field {
    zeros: 2,
    width: 4,
    limit: 10000000,
};

const FIRST_RATIO: Field = Field {
    zeros: 4,
    width: 2,
    limit: 1000,
};

const TYPE_NUMBER: Field = Field {
    zeros: 0,
    width: 2,
    limit: 65535,
};

const SOIL_AREA: Field = Field {
    zeros: 0,
    width: 4,
    limit: 100000,
};

const NATIVE_CARBON: Field = Field {
    zeros: 0,
    width: 2,
    limit: 10000,
};

const SOIL_FACTOR: Field = Field {
    zeros: 0,
    width: 2,
    limit: 300,
};

const RESIDUE_RATIO: Field = Field {
    zeros: 0,
    width: 2,
    limit: 1000,
};

const CROP_CARBON: Field = Field {
    zeros: 0,
    width: 2,
    limit: 10000,
};

const NONE: Field = Field {
    zeros: 0,
    width: 0,
    limit: 0,
};

fn conversion(i: usize) -> Field
    requires { i < length conversion }
    ensures { result ≡ field_at conversion i }
{
    if i == 0 {
        return ID;
    }
    if (i == 1) | (i == 10) {
        return AREA;
    }
    if (i == 2) | (i == 3) | (i == 11) | (i == 12) {
        return DENSITY;
    }
    FRACTION
}

fn stock(i: usize) -> Field
    requires { i < length stock }
    ensures { result ≡ field_at stock i }
{
    match i {
        0 => ID,
        1 => UNIT_CODE,
        2 => RATE,
        3 => AMOUNT,
        _ => FRACTION,
    }
}

fn harvest(i: usize) -> Field
    requires { i < length harvest }
    ensures { result ≡ field_at harvest i }
{
    match i {
        0 => ID,
        1 => AMOUNT,
        2 => TONNES_PER_M3,
        3 => FUELWOOD,
        _ => AMOUNT,
    }
}

fn parameters(i: usize) -> Field
    requires { i < length parameters }
    ensures { result ≡ field_at parameters i }
{
    if i == 0 { FIRST_RATIO } else { FRACTION }
}

fn abandoned(i: usize) -> Field
    requires { i < length abandoned }
    ensures { result ≡ field_at abandoned i }
{
    if i == 0 {
        return ID;
    }
    if (i == 1) | (i == 4) {
        return AMOUNT;
    }
    if (i == 2) | (i == 5) {
        GROWTH_RATE
    } else {
        FRACTION
    }
}

fn savanna(i: usize) -> Field
    requires { i < length savanna }
    ensures { result ≡ field_at savanna i }
{
    if i == 0 {
        return ID;
    }
    if i == 1 {
        return AREA;
    }
    if i == 2 { DENSITY } else { FRACTION }
}

fn soil(i: usize) -> Field
    requires { i < length soil }
    ensures { result ≡ field_at soil i }
{
    if i == 0 {
        return ID;
    }
    if (i == 1) | (i == 2) {
        return TYPE_NUMBER;
    }
    if (i == 3) | (i == 4) {
        return SOIL_AREA;
    }
    if i == 5 { NATIVE_CARBON } else { SOIL_FACTOR }
}

fn crop(i: usize) -> Field
    requires { i < length crop }
    ensures { result ≡ field_at crop i }
{
    if i == 0 {
        return ID;
    }
    if i == 1 {
        return AMOUNT;
    }
    if i == 2 {
        return RESIDUE_RATIO;
    }
    if i == 6 { CROP_CARBON } else { FRACTION }
}

// A new kind is a new line.
pub fn field(kind: usize, i: usize) -> Field
    requires { i < numbers_of kind }
    ensures { result ≡ field_at (layout kind) i }
{
    match kind {
        1 => conversion(i),
        2 => stock(i),
        3 => harvest(i),
        4 => parameters(i),
        5 => abandoned(i),
        6 => savanna(i),
        7 => soil(i),
        8 => crop(i),
        _ => NONE,
    }
}

// How many numbers a row of a kind has; another number is no kind and has none. A new kind is a new line.
pub fn numbers(kind: usize) -> usize
    ensures { (result ≡ numbers_of kind) × (result ≤ 16) }
{
    match kind {
        1 => 15,
        2 => 5,
        3 => 5,
        4 => 6,
        5 => 7,
        6 => 14,
        7 => 9,
        8 => 12,
        _ => 0,
    }
}
