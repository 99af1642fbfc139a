// The limits of documents 01 and 02. specs/Limits.antt has the same names, and no other line says these numbers.
ghost use Rattle.std.specs.Prelude.{◌≡◌};
ghost use Rattle.grid.specs.Limits.{most_budget};

// Buses of a grid: as many as a set has room for.
pub const MOST_BUSES: usize = busset::WIDTH;

// Its lines.
pub const MOST_LINES: usize = 256;

// Circuits of a line.
pub const MOST_CIRCUITS: usize = 8;

// Circuits are several from here on, and a text says how many they are.
pub const LEAST_SEVERAL: usize = 2;

// Steps of a list.
pub const MOST_STEPS: usize = 1024;

// New units of greedy: one at each bus.
pub const MOST_GREEDY_BUDGET: usize = MOST_BUSES;

// Bytes of a case text.
pub const MOST_BYTES: usize = 8192;

// Bytes of a step text.
pub const MOST_STEP_BYTES: usize = 16384;

// New units of the fewest, on any grid.
pub const LARGEST_BUDGET: usize = 8;

// New units of the fewest, on a grid of n buses.
pub fn most_budget(n: usize) -> usize
    ensures { result ≡ most_budget n }
{
    LARGEST_BUDGET
}
