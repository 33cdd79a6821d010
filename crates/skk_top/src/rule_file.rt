ghost use Rattle.std.specs.Prelude.{◌≡◌, ◌≤◌, Some, IfOk, IfErr, IfSome};
ghost use Rattle.std.specs.Option.{option_map};
ghost use Rattle.skk_top.specs.RunFiles.{RefusesFile, RefusesBytes};
ghost use Rattle.skk_top.specs.RunRules.{AreRules, HaveRules, HasRulesFlaw, RefusesRules, fault_of_rules};
ghost use Rattle.run_endings.specs.declared.run_file.RunFile.TheVariants.{Rules};

use crate::run_file::read_run_file;
use command_line::Word;
use romaji_rules::{RULE_FILE_LIMIT, RuleFault, Rules};
use run_endings::{Flaw, RunFault, RunFile};
use skk_outside::Shelf;
use std::alloc::Global;

/// Reads the rules of a run: those of the file of this name, or the standard table where none is named.
pub fn read_rules<H: Shelf>(
    alloc: Global,
    shelf: &mut H,
    name: &Option<Word>,
) -> Result<Rules, RunFault>
    ensures rules { IfOk result (AreRules (option_map (H.file shelf.old) name.now)) }
    ensures refused { IfErr result (RefusesRules (option_map (H.file shelf.old) name.now)
        (H.faults shelf.old) (H.faults shelf.new)) }
    ensures counted { H.faults shelf.old ≤ H.faults shelf.new }
    ensures kept { H.file shelf.new ≡ H.file shelf.old }
{
    match name {
        Some(name) => read_rule_file(alloc, shelf, name),
        None => Ok(Rules::standard(alloc)?),
    }
}

// Reads the rules of the file of this name.
fn read_rule_file<H: Shelf>(alloc: Global, shelf: &mut H, name: &Word) -> Result<Rules, RunFault>
    ensures rules { IfOk result (λ rules. IfSome (H.file shelf.old name.now) (λ bytes. HaveRules bytes rules)) }
    ensures refused { IfErr result (RefusesFile RunFile.Rules HasRulesFlaw (H.file shelf.old name.now)
        (H.faults shelf.old) (H.faults shelf.new)) }
    ensures counted { H.faults shelf.old ≤ H.faults shelf.new }
    ensures kept { H.file shelf.new ≡ H.file shelf.old }
{
    match read_run_file(alloc, shelf, name, RunFile::Rules, RULE_FILE_LIMIT) {
        Ok(bytes) => rules_of(alloc, bytes.as_slice()),
        Err(fault) => Err(fault),
    }
}

// The rules of a rule file's bytes.
fn rules_of(alloc: Global, bytes: &[u8]) -> Result<Rules, RunFault>
    ensures rules { IfOk result (HaveRules bytes.now) }
    ensures refused { IfErr result (RefusesBytes RunFile.Rules HasRulesFlaw bytes.now) }
{
    match Rules::read(alloc, bytes) {
        Ok(rules) => Ok(rules),
        Err(fault) => Err(fault_of_rules(fault)),
    }
}

// What a fault of a rule file is for the run.
fn fault_of_rules(fault: RuleFault) -> RunFault
    ensures { result ≡ fault_of_rules fault }
{
    match fault {
        RuleFault::NoText(fault) => RunFile::Rules.fault_of_text(fault),
        RuleFault::BadLine { line } | RuleFault::Twice { line } | RuleFault::BadNext { line } => {
            RunFile::Rules.fault_of_flaw(Flaw::Line { number: line })
        }
        RuleFault::Memory => RunFault::Memory,
    }
}
