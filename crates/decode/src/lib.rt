// What a cell says: typed views of its kind and its words. Names, and what is named by number in a table, stay numbers.
// A kind comes as a word, as the job hands it in: the readers here turn it into an enum once.
#![tactic(auto)]

ghost use Rattle.std.specs.Prelude.{◌≡◌, [], ◌∷◌, ℕ, ◌+◌, ◌≤◌, ◌<◌, length, get_or, take, drop, MatchOption};
ghost use Rattle.model.specs.Term.{read_literal, read_term};
ghost use Rattle.model.specs.Program as program;
ghost use Rattle.model.specs.Program.{name_old, name_new, name_global_actions, name_merge_function};
ghost use Rattle.model.specs.Decode.{read_head, read_arguments, read_fact, read_action, read_function, read_primitive, read_row, read_normaliser, rule_facts, rule_actions, read_rule, read_proof};
ghost use Rattle.decode.specs.View.{cell, literal_of, term_of, head_of, fact_of, action_of, function_of, kind_of, HasNoOperation, HasKind, primitive_of, row_of, normaliser_of, proposition_of, rule_premises, rule_pairs, Justifies};

// A name, by the number that a job gives it.
#[derive(Clone, Copy)]
pub struct Name {
    pub number: u32,
}

// The reserved names.
impl Name {
    pub const OLD: Name = Name { number: 0 };

    pub const NEW: Name = Name { number: 1 };

    pub const GLOBAL_ACTIONS: Name = Name { number: 2 };

    pub const MERGE_FUNCTION: Name = Name { number: 3 };
}

// A literal's three words.
#[derive(Clone, Copy)]
pub struct Literal {
    pub kind: u32,
    pub low: u32,
    pub high: u32,
}

// A term: a literal, a variable's name, or the head of an application, whose children `read_arguments` gives.
#[derive(Clone, Copy)]
pub enum Term {
    Lit(Literal),
    Var(u32),
    App(u32),
}

// What stands at the top of an expression: a call of a constructor or a function by name, of a primitive by number.
#[derive(Clone, Copy)]
pub enum Head {
    Lit(Literal),
    Var(u32),
    Constructor(u32),
    Custom(u32),
    Primitive(u32),
}

// A fact: two expressions that are equal, or one.
#[derive(Clone, Copy)]
pub enum Fact {
    Equal(u32, u32),
    Bare(u32),
}

// An action: let, with its name; union; set or expression; panic or change.
#[derive(Clone, Copy)]
pub enum Action {
    Let(u32, u32),
    Union(u32, u32),
    Run(u32),
    Idle,
}

// A function: its name, and its merge, if it has one, by the expression's number.
#[derive(Clone, Copy)]
pub struct Function {
    pub name: u32,
    pub merge: Option<u32>,
}

// What a primitive that computes makes of its arguments' integers.
#[derive(Clone, Copy)]
pub enum Operation {
    Sum,
    Difference,
    Product,
    Negation,
    Quotient,
}

// What a primitive's validator does: there is none, it looks rows up, or it computes. No Option, as `Unknown` stands for no validator of ours either. A kind past 8, which no admitted job has, is unknown and computes nothing.
#[derive(Clone, Copy)]
pub enum Validator {
    Nothing,
    Rows,
    Computes(Operation),
    Unknown(u32),
}

// A primitive: its validator, and whether its output is a container sort.
#[derive(Clone, Copy)]
pub struct Primitive {
    pub name: u32,
    pub validator: Validator,
    pub container: bool,
}

// What a primitive gives for the arguments that `row_arguments` has.
#[derive(Clone, Copy)]
pub struct Row {
    pub primitive: u32,
    pub result: u32,
}

// The primitive that normalises containers of this head.
#[derive(Clone, Copy)]
pub struct Normaliser {
    pub head: u32,
    pub primitive: u32,
}

// Two terms, said to be equal.
#[derive(Clone, Copy)]
pub struct Proposition {
    pub lhs: u32,
    pub rhs: u32,
}

// A step by a rule: its name and the number of its premises.
#[derive(Clone, Copy)]
pub struct RuleStep {
    pub name: u32,
    pub premises: u32,
}

// A step by a function's merge.
#[derive(Clone, Copy)]
pub struct MergeStep {
    pub function: u32,
    pub old_proof: u32,
    pub new_proof: u32,
}

// A step by congruence: the child of this index is replaced.
#[derive(Clone, Copy)]
pub struct CongrStep {
    pub proof: u32,
    pub child_index: u32,
    pub child_proof: u32,
}

// Why a proof holds; other proofs are given by number.
#[derive(Clone, Copy)]
pub enum Justification {
    Fiat,
    Rule(RuleStep),
    MergeFn(MergeStep),
    Trans(u32, u32),
    Sym(u32),
    Congr(CongrStep),
    ContainerNormalize(u32),
    Eval,
}

// The numbers of the reserved names, as the definitions have them.
pub fn reserved_names() -> [u32; 4]
    ensures { result ≡ name_old ∷ name_new ∷ name_global_actions ∷ name_merge_function ∷ [] }
{
    [
        Name::OLD.number,
        Name::NEW.number,
        Name::GLOBAL_ACTIONS.number,
        Name::MERGE_FUNCTION.number,
    ]
}

// The literal of three words.
pub fn read_literal(words: &[u32]) -> Literal
    requires { 3 ≤ length words.now }
    ensures { literal_of result ≡ read_literal words.now }
{
    Literal {
        kind: words[0],
        low: words[1],
        high: words[2],
    }
}

// The term of a cell.
pub fn read_term(kind: u32, words: &[u32]) -> Term
    requires { get_or (3 ∷ []) kind 1 ≤ length words.now }
    ensures { term_of result (drop 1 words.now) ≡ read_term (cell kind words.now) }
{
    match kind {
        0 => Term::Lit(read_literal(words)),
        1 => Term::Var(words[0]),
        _ => Term::App(words[0]),
    }
}

// The head of an expression's cell.
pub fn read_head(kind: u32, words: &[u32]) -> Head
    requires { get_or (3 ∷ []) kind 1 ≤ length words.now }
    ensures { head_of result ≡ read_head (cell kind words.now) }
{
    match kind {
        0 => Head::Lit(read_literal(words)),
        1 => Head::Var(words[0]),
        2 => Head::Constructor(words[0]),
        3 => Head::Custom(words[0]),
        _ => Head::Primitive(words[0]),
    }
}

// The children of a term's cell and the arguments of an expression's: a literal and a variable have none.
pub fn read_arguments(kind: u32, words: &[u32]) -> &[u32]
    requires { 1 ≤ length words.now }
    ensures { result.now ≡ read_arguments (cell kind words.now) }
{
    if kind < 2 {
        return &words[..0];
    }
    &words[1..]
}

// The fact of a cell, whatever the expressions are.
pub fn read_fact(kind: u32, words: &[u32]) -> Fact
    requires { get_or (2 ∷ []) kind 1 ≤ length words.now }
    ensures { (expr : ℕ → program.Expr) (i : ℕ) → fact_of expr i result ≡ read_fact expr i (cell kind words.now) }
{
    match kind {
        0 => Fact::Equal(words[0], words[1]),
        _ => Fact::Bare(words[0]),
    }
}

// The action of a cell, whatever the expressions are.
pub fn read_action(kind: u32, words: &[u32]) -> Action
    requires { get_or (2 ∷ 2 ∷ 1 ∷ 1 ∷ []) kind 0 ≤ length words.now }
    ensures { (expr : ℕ → program.Expr) → action_of expr result ≡ read_action expr (cell kind words.now) }
{
    match kind {
        0 => Action::Let(words[0], words[1]),
        1 => Action::Union(words[0], words[1]),
        2 => Action::Run(words[0]),
        3 => Action::Run(words[0]),
        _ => Action::Idle,
    }
}

// The function of a cell, whatever the expressions are.
pub fn read_function(kind: u32, words: &[u32]) -> Function
    requires { get_or (1 ∷ []) kind 2 ≤ length words.now }
    ensures { (expr : ℕ → program.Expr) → function_of expr result ≡ read_function expr (cell kind words.now) }
{
    match kind {
        0 => Function {
            name: words[0],
            merge: None,
        },
        _ => Function {
            name: words[0],
            merge: Some(words[1]),
        },
    }
}

// The operation of a primitive's kind.
pub fn operation_of(kind: u32) -> Option<Operation>
    ensures { MatchOption result (HasNoOperation kind) (λ o. kind_of o ≡ kind) }
{
    match kind {
        4 => Some(Operation::Sum),
        5 => Some(Operation::Difference),
        6 => Some(Operation::Product),
        7 => Some(Operation::Negation),
        8 => Some(Operation::Quotient),
        _ => None,
    }
}

// The validator of a kind past 3.
fn computing_validator(kind: u32) -> Validator
    requires { 4 ≤ kind }
    ensures { HasKind result kind }
{
    match operation_of(kind) {
        Some(operation) => Validator::Computes(operation),
        None => Validator::Unknown(kind),
    }
}

// The primitive of a cell.
pub fn read_primitive(kind: u32, words: &[u32]) -> Primitive
    requires { 1 ≤ length words.now }
    ensures { primitive_of result ≡ read_primitive (cell kind words.now) }
{
    let name = words[0];
    let (validator, container) = match kind {
        0 => (Validator::Nothing, false),
        1 => (Validator::Rows, false),
        2 => (Validator::Nothing, true),
        3 => (Validator::Rows, true),
        _ => (computing_validator(kind), false),
    };
    Primitive {
        name,
        validator,
        container,
    }
}

// The row of a cell's words.
pub fn read_row(words: &[u32]) -> Row
    requires { 2 ≤ length words.now }
    ensures { row_of result (drop 2 words.now) ≡ read_row (cell 0 words.now) }
{
    Row {
        primitive: words[0],
        result: words[1],
    }
}

// The arguments of a row.
pub fn row_arguments(words: &[u32]) -> &[u32]
    requires { 2 ≤ length words.now }
    ensures { result.now ≡ (read_row (cell 0 words.now)).arguments }
{
    &words[2..]
}

// The normaliser of a cell's words.
pub fn read_normaliser(words: &[u32]) -> Normaliser
    requires { 2 ≤ length words.now }
    ensures { normaliser_of result ≡ read_normaliser (cell 0 words.now) }
{
    Normaliser {
        head: words[0],
        primitive: words[1],
    }
}

// The words behind index at, as many as the word there says.
fn counted(words: &[u32], at: usize) -> &[u32]
    requires { at + 1 + get_or words.now at 0 ≤ length words.now }
    ensures { result.now ≡ take (get_or words.now at 0) (drop (at + 1) words.now) }
{
    let s = at + 1;
    let e = s + cells::wide(words[at]);
    &words[s..e]
}

// The words behind those that `counted` gives.
fn behind(words: &[u32], at: usize) -> &[u32]
    requires { at + 1 + get_or words.now at 0 ≤ length words.now }
    ensures { result.now ≡ drop (get_or words.now at 0) (drop (at + 1) words.now) }
{
    let e = at + 1 + cells::wide(words[at]);
    &words[e..]
}

// The name of a rule, whatever the facts and the actions are.
pub fn rule_name(words: &[u32]) -> u32
    requires { 1 ≤ length words.now }
    ensures { (fact : ℕ → program.Fact) (action : ℕ → program.Action) → result ≡ (read_rule fact action (cell 0 words.now)).name }
{
    words[0]
}

// The fact numbers of a rule.
pub fn rule_facts(words: &[u32]) -> &[u32]
    requires { 2 + get_or words.now 1 0 ≤ length words.now }
    ensures { result.now ≡ rule_facts (cell 0 words.now) }
{
    counted(words, 1)
}

// The action numbers of a rule.
pub fn rule_actions(words: &[u32]) -> &[u32]
    requires { 2 + get_or words.now 1 0 ≤ length words.now }
    ensures { result.now ≡ rule_actions (cell 0 words.now) }
{
    behind(words, 1)
}

// What a proof claims, whatever its kind.
pub fn read_claim(words: &[u32]) -> Proposition
    requires { 2 ≤ length words.now }
    ensures { (kind : ℕ) → proposition_of result ≡ (read_proof (cell kind words.now)).claim }
{
    Proposition {
        lhs: words[0],
        rhs: words[1],
    }
}

// Why a proof holds.
pub fn read_justification(kind: u32, words: &[u32]) -> Justification
    requires { get_or (0 ∷ 4 ∷ 5 ∷ 4 ∷ 3 ∷ 5 ∷ 3 ∷ []) kind 0 ≤ length words.now }
    ensures { Justifies result (cell kind words.now) }
{
    match kind {
        0 => Justification::Fiat,
        1 => Justification::Rule(RuleStep {
            name: words[2],
            premises: words[3],
        }),
        2 => Justification::MergeFn(MergeStep {
            function: words[2],
            old_proof: words[3],
            new_proof: words[4],
        }),
        3 => Justification::Trans(words[2], words[3]),
        4 => Justification::Sym(words[2]),
        5 => Justification::Congr(CongrStep {
            proof: words[2],
            child_index: words[3],
            child_proof: words[4],
        }),
        6 => Justification::ContainerNormalize(words[2]),
        _ => Justification::Eval,
    }
}

// The premises of a rule step.
pub fn rule_premises(words: &[u32]) -> &[u32]
    requires { 4 + get_or words.now 3 0 ≤ length words.now }
    ensures { result.now ≡ rule_premises (cell 1 words.now) }
{
    counted(words, 3)
}

// The pairs of a rule step's substitution.
pub fn rule_pairs(words: &[u32]) -> &[u32]
    requires { 4 + get_or words.now 3 0 ≤ length words.now }
    ensures { result.now ≡ rule_pairs (cell 1 words.now) }
{
    behind(words, 3)
}
