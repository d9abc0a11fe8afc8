// Which methods commute (01, "Vectors and commuting"): the fields of a vector in each mode, and the table of the modes that go together.
#![tactic(auto)]

ghost use Rattle.std.specs.Prelude.{◌<◌, ◌≡◌, length};
ghost use Rattle.model.specs.Mode.{compatible};
ghost use Rattle.vector_commute.specs.Ranks.{pair_apart, row_apart};
ghost use Rattle.vector_commute.specs.Commuting.{mode_mask, apart};

use vector_direct::Vector;

// Table 1 of the paper: which modes of a field are compatible, by rank: Null, Read, Add, Write.
const COMPATIBLE: [[bool; 4]; 4] = [
    [true, true, true, true],
    [true, true, false, false],
    [true, false, true, false],
    [true, false, false, false],
];

// The fields in the mode of a rank, by whether it depends on them and whether it changes them. A number that is no rank has none:
// the clause says so of each number, so the rank is no enum.
pub fn mode_mask(vector: Vector, rank: usize) -> u32
    ensures { result ≡ mode_mask vector rank }
{
    let depends = vector.depends;
    let changes = vector.changes;
    match rank {
        0 => !(depends | changes),
        1 => depends & !changes,
        2 => changes & !depends,
        3 => depends & changes,
        _ => 0,
    }
}

// Whether the modes of these ranks are compatible, or no field is in the one for the first method and in the other for the second.
fn pair_apart(a: Vector, b: Vector, i: usize, j: usize) -> bool
    requires { (i < length compatible) × (j < length compatible) }
    ensures { result ≡ pair_apart compatible (mode_mask a) (mode_mask b) i j }
{
    COMPATIBLE[i][j] || mode_mask(a, i) & mode_mask(b, j) == 0
}

// The same for every mode of the second method.
fn row_apart(a: Vector, b: Vector, i: usize) -> bool
    requires { i < length compatible }
    ensures { result ≡ row_apart compatible (mode_mask a) (mode_mask b) i }
{
    (0..COMPATIBLE.len()).all(|j| pair_apart(a, b, i, j))
}

// Whether two methods commute: no pair of modes that the table forbids meets at a field.
pub fn commuting(a: Vector, b: Vector) -> bool
    ensures { result ≡ apart a b }
{
    (0..COMPATIBLE.len()).all(|i| row_apart(a, b, i))
}
