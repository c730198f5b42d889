//! The program that a text's syntax stands for.
ghost use Rattle.std.specs.Prelude.{◌≡◌, [], None, Ok, IfOk, IfErr, length, map};
ghost use Rattle.stab_code.specs.Nodes.{nodes_in};
ghost use Rattle.stab_code.specs.Program.{program_of as program_with};
ghost use Rattle.stab_code.specs.Valid.{IsValid};
ghost use Rattle.scope_check.specs.Progress.{texts_of as texts_in};
ghost use Rattle.stab_parse.specs.FormList.{functions_of, nodes_of_program};
ghost use Rattle.scope_check.specs.Places.{part_lists as parts_of_each};
ghost use Rattle.scope_check.specs.Progress.{IsFaultOf};
ghost use Rattle.scope_check.specs.Reading.{IsReadFrom};
ghost use Rattle.scope_check.specs.Scope.{function_fault, program_scoped};

use crate::fault::ScopeFault;
use crate::header::function_names;
use crate::parts::part_lists;
use crate::plan::Plan;
use crate::progress::Progress;
use crate::stretches::plain_from;
use indexmap::IndexSet;
use stab_base::{FnId, Texts};
use stab_code::{Function, Nodes, PartLists, Program};
use stab_parse::Tree;
use std::alloc::Global;

/// The program that the syntax of a text stands for: the functions with their written types, slots and texts, and one node for
/// each form, function after function, each directly after the nodes of its parts. The bytes are those that the syntax was
/// read from: at most 1,048,576.
pub fn scope(alloc: Global, tree: &Tree, bytes: &[u8]) -> Result<Program, ScopeFault>
    requires { IsReadFrom bytes.now tree.now }
    ensures program { IfOk result (λ program. (read : IsReadFrom bytes.now tree.now)
        → program_scoped bytes.now read.syntax ≡ Ok program) }
    ensures fault { IfErr result (λ fault. (read : IsReadFrom bytes.now tree.now)
        → IsFaultOf (program_scoped bytes.now read.syntax) fault) }
{
    let functions = tree.functions.all();
    let forms = tree.forms.all();
    let names = function_names(alloc, bytes, functions)?;
    let parts = part_lists(alloc, forms)?;
    let plain_from = plain_from(alloc, forms)?;
    let plan = Plan {
        alloc,
        bytes,
        functions,
        names,
        forms,
        parts,
        plain_from,
    };
    planned(alloc, tree, plan)
}

// The program of a plan for what was read.
fn planned(alloc: Global, tree: &Tree, plan: Plan) -> Result<Program, ScopeFault>
    requires read { IsReadFrom plan.bytes.now tree.now }
    requires functions { (read : IsReadFrom plan.bytes.now tree.now) → functions_of read.syntax ≡ plan.functions.now }
    requires forms { (read : IsReadFrom plan.bytes.now tree.now) → nodes_of_program read.syntax ≡ plan.forms.now }
    requires laid { plan.parts ≡ parts_of_each 0 [] plan.forms.now }
    requires names { function_fault plan.bytes.now [] plan.functions.now ≡ None }
    ensures program { IfOk result (λ program. (read : IsReadFrom plan.entry.bytes.now tree.now)
        → program_scoped plan.entry.bytes.now read.syntax ≡ Ok program) }
    ensures fault { IfErr result (λ fault. (read : IsReadFrom plan.entry.bytes.now tree.now)
        → IsFaultOf (program_scoped plan.entry.bytes.now read.syntax) fault) }
{
    let main = plan.main()?;
    let mut progress = Progress::with_room(alloc, plan.forms.len())?;
    let made = plan.functions(&mut progress)?;
    program_of(alloc, plan.parts, progress, made, main)
}

// The program of these parts.
fn program_of(
    alloc: Global,
    parts: PartLists,
    progress: Progress,
    made: Vec<Function>,
    main: FnId,
) -> Result<Program, ScopeFault>
    requires laid { length progress.heads.items ≡ length parts }
    requires valid { IsValid (program_with made.items (nodes_in progress.heads.items parts) (texts_in progress) main) }
    ensures program { IfOk result (λ program. program ≡ program_with made.items (nodes_in progress.heads.items parts) (texts_in progress) main) }
    ensures fault { IfErr result (λ fault. fault ≡ ScopeFault.NoMemory) }
{
    let texts = texts_of(alloc, progress.texts)?;
    let nodes = Nodes::of(progress.heads, parts);
    Ok(Program::new(made, nodes, texts, main))
}

fn texts_of(alloc: Global, numbered: IndexSet<Vec<u8>>) -> Result<Texts, ScopeFault>
    ensures texts { IfOk result (λ texts. texts ≡ map (λ text. text.items) numbered.keys) }
    ensures fault { IfErr result (λ fault. fault ≡ ScopeFault.NoMemory) }
{
    let mut texts = Vec::new(alloc);
    for text in numbered {
        texts.push(text)?;
    }
    Ok(Texts::new(texts))
}
