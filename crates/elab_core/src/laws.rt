//! What holds of elaboration by its definitions alone: the first faulty event, substitution, and sources worked by hand.

ghost use Rattle.std.specs.Prelude.{ℕ, List};
ghost use Rattle.gen_tree.specs.Tree.{Module};
ghost use Rattle.elab_core.specs.Laws.{IsFirstFault, IsSubstitution};
ghost use Rattle.exec_core.specs.Block.{Name};
ghost use Rattle.design_core.specs.Design.{Gens};
ghost use Rattle.elab_core.specs.Samples.{loops_is_elaborated, loops_is_refused, endless_is_refused, family_is_elaborated, files_are_elaborated, files_are_refused};

/// A law: the fault of a walk is that of the first of its events that has one, with the counts of those before it.
pub fn first_faulty_event()
    ensures { (modules : List Module) (top : Name) (rest : Gens) → IsFirstFault modules top rest }
{}

/// A law: what the walk gives with its list of names and numbers is what replacing names by numbers gives, for sources whose loops
/// nest less deep than `depth`, and parameters of the top from -2^62 to 2^62.
pub fn by_substitution()
    ensures { (depth : ℕ) (modules : List Module) (top : Name) (rest : Gens) → IsSubstitution depth modules top rest }
{}

/// Small sources, elaborated by hand: a loop with its slots and generator variables, and its refusals; an instance below itself;
/// a family of instances with its variants and slots; two files, whose slots go by the number of the file.
pub fn elaborates_the_samples()
    ensures loops { loops_is_elaborated }
    ensures loops_refused { loops_is_refused }
    ensures endless { endless_is_refused }
    ensures family { family_is_elaborated }
    ensures files { files_are_elaborated }
    ensures files_refused { files_are_refused }
{}
