// Theorems on matrices over a field: each is what a function ensures, so that it is proved with the program.
ghost use Rattle.algebra.specs.Matrices.{ReducedFormIsUnique, SwapKeepsNull, ScalingKeepsNull, AddingKeepsNull, RankCounts};
ghost use Rattle.algebra.specs.Solutions.{ReducedFormSolves};

// A matrix has one reduced row echelon form.
pub fn reduced_form_is_unique()
    ensures { ReducedFormIsUnique }
{}

// The exchange of two rows keeps the null space.
pub fn swap_keeps_null()
    ensures { SwapKeepsNull }
{}

// The product of a row with a nonzero symbol keeps the null space.
pub fn scaling_keeps_null()
    ensures { ScalingKeepsNull }
{}

// The sum of a row and a multiple of another keeps the null space.
pub fn adding_keeps_null()
    ensures { AddingKeepsNull }
{}

// The rank counts the rows that are not zero, and the columns that are not free.
pub fn rank_counts()
    ensures { RankCounts }
{}

// The free columns of the reduced row echelon form give the solutions.
pub fn reduced_form_solves()
    ensures { ReducedFormSolves }
{}
