// The names of a script, read at their places.
ghost use Rattle.std.specs.Prelude.{◌≡◌, ◌<◌, ◌≤◌, length};
ghost use Rattle.gt_model.specs.Good.{IsGood};
ghost use Rattle.gt_trace.specs.Text.{name_of, function_name};

use gt_model::Script;

/// The name that is declared at a place.
#[tactic(auto, using(crate::proofs::ScriptNames::decl_name))]
pub fn declared_name(script: &Script, place: u32) -> &[u8]
    requires good { IsGood script.now }
    requires declared { place < length script.now.decls }
    ensures name { result.now ≡ name_of script.now place }
    ensures short { length result.now ≤ 32 }
{
    script.decls.as_slice()[place as usize].name.as_slice()
}

/// The name of the function at a place.
#[tactic(auto, using(crate::proofs::ScriptNames::func_name))]
pub fn name_of_function(script: &Script, f: u32) -> &[u8]
    requires good { IsGood script.now }
    requires declared { f < length script.now.funcs }
    ensures name { result.now ≡ function_name script.now f }
    ensures short { length result.now ≤ 32 }
{
    let func = &script.funcs.as_slice()[f as usize];
    declared_name(script, func.decl)
}
