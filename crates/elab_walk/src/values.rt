//! The parameters of an instance: its arguments, and the defaults of the others.

ghost use Rattle.std.specs.Prelude.{◌≡◌, [], IfOk, map};
ghost use Rattle.gen_tree.specs.View.{module_of, param_of};
ghost use Rattle.elab_core.specs.Results.{AnswersWith};
ghost use Rattle.elab_core.specs.Walk.{Gives};
ghost use Rattle.elab_core.specs.Numbers.{find, number};
ghost use Rattle.elab_core.specs.Elab.{distinct, given_or, parameters as parameters_walk, values as values_walk, top_values as top_walk};
ghost use Rattle.elab_walk.specs.Values.{names_of as names_in, is_open, arguments_by, top_arguments_by};

use elab_base::{default_at, number_at};
use elab_core::ElabFault;
use gen_scope::{Params, Scope};
use gen_tree::{Module, Param};
use names::NameSet;
use std::alloc::Global;
use text_core::Text;

/// The names of a module's parameters. It is a fault on the line of the module if two have one name.
fn names_of(alloc: Global, found: &Module) -> Result<NameSet, ElabFault>
    ensures distinct { AnswersWith (λ _. tt) result (distinct (module_of found.now).line [] (module_of found.now).params) }
    ensures names { IfOk result (λ names. names ≡ names_in (module_of found.now).params) }
{
    let mut names = NameSet::new(alloc);
    for param in &found.params {
        if !names.insert(alloc, param.name.bytes())? {
            let name = Text::new(alloc, param.name.bytes())?;
            return Err(ElabFault::UnknownParameter {
                line: found.line,
                name,
            });
        }
    }
    Ok(names)
}

/// Whether a name is one of these, and was not given.
fn is_free(names: &NameSet, given: &Params, name: &[u8]) -> bool
    ensures { result ≡ is_open names.now given.now name.now }
{
    names.contains(name) && given.number_of(name).is_none()
}

/// The arguments of an instance, computed where it stands.
#[tactic(auto, using(crate::proofs::ValueSteps::argument_steps))]
fn arguments(
    alloc: Global,
    line: u32,
    scope: &Scope,
    names: &NameSet,
    args: &[Param],
) -> Result<Params, ElabFault>
    ensures { AnswersWith (λ given. given) result (arguments_by line scope.now names.now (map param_of args.now) []) }
{
    let mut given = Params::new(alloc);
    for arg in args {
        if !is_free(names, &given, arg.name.bytes()) {
            let name = Text::new(alloc, arg.name.bytes())?;
            return Err(ElabFault::UnknownParameter { line, name });
        }
        let number = number_at(alloc, line, scope, &arg.value)?;
        given.push(alloc, arg.name.bytes(), number)?;
    }
    Ok(given)
}

/// The parameters that are given to the top, in their order.
#[tactic(auto, using(crate::proofs::ValueSteps::top_steps))]
fn top_arguments(alloc: Global, names: &NameSet, all: &[(Text, i64)]) -> Result<Params, ElabFault>
    ensures { AnswersWith (λ given. given) result (top_arguments_by names.now all.now []) }
{
    let mut given = Params::new(alloc);
    for (name, number) in all {
        if !is_free(names, &given, name.bytes()) {
            let name = Text::new(alloc, name.bytes())?;
            return Err(ElabFault::UnknownParameter { line: 0, name });
        }
        given.push(alloc, name.bytes(), *number)?;
    }
    Ok(given)
}

/// The number of a parameter: given, or its default, which may name those that are done.
fn number_of(
    alloc: Global,
    line: u32,
    given: &Params,
    done: &Params,
    param: &Param,
) -> Result<i64, ElabFault>
    ensures { AnswersWith (λ n. n) result (given_or (find given.now (param_of param.now).name) (number line done.now (param_of param.now).value)) }
{
    match given.number_of(param.name.bytes()) {
        Some(number) => Ok(number),
        None => {
            let number = default_at(alloc, line, done, &param.value)?;
            Ok(number)
        }
    }
}

/// The parameters of a module in order, given or by their defaults. Faults are on the line of the module.
fn parameters(alloc: Global, found: &Module, given: &Params) -> Result<Params, ElabFault>
    requires { distinct (module_of found.now).line [] (module_of found.now).params ≡ Gives tt }
    ensures { AnswersWith (λ done. done) result (parameters_walk (module_of found.now).line (module_of found.now).params given.now []) }
{
    let mut done = Params::new(alloc);
    for param in &found.params {
        let number = number_of(alloc, found.line, given, &done, param)?;
        done.push(alloc, param.name.bytes(), number)?;
    }
    Ok(done)
}

/// The parameters of a module, with these arguments at this line.
#[tactic(auto, using(crate::proofs::ValueSteps::values_steps))]
pub(crate) fn values(
    alloc: Global,
    line: u32,
    scope: &Scope,
    found: &Module,
    args: &[Param],
) -> Result<Scope, ElabFault>
    ensures { AnswersWith (λ params. params) result (values_walk line scope.now (module_of found.now) (map param_of args.now)) }
{
    let names = names_of(alloc, found)?;
    let given = arguments(alloc, line, scope, &names, args)?;
    let params = parameters(alloc, found, &given)?;
    let shared = Scope::new(alloc, params)?;
    Ok(shared)
}

/// The parameters of the top, where these are given.
#[tactic(auto, using(crate::proofs::ValueSteps::top_values_steps))]
pub(crate) fn top_values(
    alloc: Global,
    found: &Module,
    all: &[(Text, i64)],
) -> Result<Scope, ElabFault>
    ensures { AnswersWith (λ params. params) result (top_walk (module_of found.now) all.now) }
{
    let names = names_of(alloc, found)?;
    let given = top_arguments(alloc, &names, all)?;
    let params = parameters(alloc, found, &given)?;
    let shared = Scope::new(alloc, params)?;
    Ok(shared)
}
