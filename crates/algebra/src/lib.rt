// What follows from the laws of a field alone. There is no program here: a theorem is asked for only where a contract names it,
// so each theorem stands on the contract of a function that does nothing else.

#![tactic(auto)]

ghost use Rattle.algebra.specs.Transforms.{RootHasOrder, TransformPair, Convolution, PassingIsNull, GeneratorByTerms};

mod matrices;

pub use matrices::{
    adding_keeps_null, rank_counts, reduced_form_is_unique, reduced_form_solves,
    scaling_keeps_null, swap_keeps_null,
};

pub fn root_has_order()
    ensures { RootHasOrder }
{}

pub fn transform_pair_holds()
    ensures { TransformPair }
{}

pub fn convolution_holds()
    ensures { Convolution }
{}

pub fn passing_is_null()
    ensures { PassingIsNull }
{}

pub fn generator_goes_by_terms()
    ensures { GeneratorByTerms }
{}
