// Typed reads of the cells of an admitted job's tables, by number within the table.
ghost use Rattle.std.specs.Prelude.{◌≡◌, ◌<◌};
ghost use Rattle.model.specs.Layout.{sizes_of};
ghost use Rattle.program.specs.Ready.{Ready, rule_for};
ghost use Rattle.program.specs.Read.{HeadAt, ArgumentsAt, FactAt, ActionAt, RuleFactsAt, RuleActionsAt, proof_cell, ClaimAt, JustificationAt, PremisesAt, SubstitutionAt};

use crate::job::{Table, kind_at, words_at};
use decode::{
    Action, Fact, Head, Justification, Proposition, read_action, read_arguments, read_claim,
    read_fact, read_head, read_justification, rule_actions, rule_facts, rule_name, rule_pairs,
    rule_premises,
};

// The head of expression e.
pub fn head_at(job: &[u32], e: usize) -> Head
    requires ready { Ready job.now }
    requires e_bound { e < (sizes_of job.now).expressions }
    ensures { HeadAt job.now e result }
{
    read_head(
        kind_at(job, Table::Expressions, e),
        words_at(job, Table::Expressions, e),
    )
}

// The arguments of expression e.
pub fn arguments_at<'a>(job: &'a [u32], e: usize) -> &'a [u32]
    requires ready { Ready job.now }
    requires e_bound { e < (sizes_of job.now).expressions }
    ensures { ArgumentsAt job.now e result.now }
{
    read_arguments(
        kind_at(job, Table::Expressions, e),
        words_at(job, Table::Expressions, e),
    )
}

// Fact i.
pub fn fact_at(job: &[u32], i: usize) -> Fact
    requires ready { Ready job.now }
    requires i_bound { i < (sizes_of job.now).facts }
    ensures { FactAt job.now i result }
{
    read_fact(
        kind_at(job, Table::Facts, i),
        words_at(job, Table::Facts, i),
    )
}

// Action i.
pub fn action_at(job: &[u32], i: usize) -> Action
    requires ready { Ready job.now }
    requires i_bound { i < (sizes_of job.now).actions }
    ensures { ActionAt job.now i result }
{
    read_action(
        kind_at(job, Table::Actions, i),
        words_at(job, Table::Actions, i),
    )
}

// The name of rule r.
pub fn rule_name_at(job: &[u32], r: usize) -> u32
    requires ready { Ready job.now }
    requires r_bound { r < (sizes_of job.now).rules }
    ensures { result ≡ (rule_for job.now r).name }
{
    rule_name(words_at(job, Table::Rules, r))
}

// The facts of rule r.
pub fn rule_facts_at<'a>(job: &'a [u32], r: usize) -> &'a [u32]
    requires ready { Ready job.now }
    requires r_bound { r < (sizes_of job.now).rules }
    ensures { RuleFactsAt job.now r result.now }
{
    rule_facts(words_at(job, Table::Rules, r))
}

// The actions of rule r.
pub fn rule_actions_at<'a>(job: &'a [u32], r: usize) -> &'a [u32]
    requires ready { Ready job.now }
    requires r_bound { r < (sizes_of job.now).rules }
    ensures { RuleActionsAt job.now r result.now }
{
    rule_actions(words_at(job, Table::Rules, r))
}

// What proof p claims.
pub fn claim_at(job: &[u32], p: usize) -> Proposition
    requires ready { Ready job.now }
    requires p_bound { p < (sizes_of job.now).proofs }
    ensures { ClaimAt job.now p result }
{
    read_claim(words_at(job, Table::Proofs, p))
}

// Why proof p holds.
pub fn justification_at(job: &[u32], p: usize) -> Justification
    requires ready { Ready job.now }
    requires p_bound { p < (sizes_of job.now).proofs }
    ensures { JustificationAt job.now p result }
{
    read_justification(
        kind_at(job, Table::Proofs, p),
        words_at(job, Table::Proofs, p),
    )
}

// The premises of proof p, which is by a rule.
pub fn premises_at<'a>(job: &'a [u32], p: usize) -> &'a [u32]
    requires ready { Ready job.now }
    requires p_bound { p < (sizes_of job.now).proofs }
    requires p_value { (proof_cell job.now p).kind ≡ 1 }
    ensures { PremisesAt job.now p result.now }
{
    rule_premises(words_at(job, Table::Proofs, p))
}

// The pairs of name and term of the substitution of proof p, which is by a rule.
pub fn substitution_at<'a>(job: &'a [u32], p: usize) -> &'a [u32]
    requires ready { Ready job.now }
    requires p_bound { p < (sizes_of job.now).proofs }
    requires p_value { (proof_cell job.now p).kind ≡ 1 }
    ensures { SubstitutionAt job.now p result.now }
{
    rule_pairs(words_at(job, Table::Proofs, p))
}
