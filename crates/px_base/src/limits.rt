//! The product's limits, each by its name. What is not built yet has its limit here already, since all crates stand on
//! this one.

/// The bytes of a program's text.
pub const PROGRAM_BYTES: usize = 262_144;
/// How many `expr`, `type` and `fntype` parts may be open around a token.
pub const NESTING: u32 = 200;
/// The depth of a written type or term that the check of types takes. What a text gives nests no deeper than `NESTING`.
pub const WRITTEN_DEPTH: u32 = 1_000;
/// The bytes of a derivation's text.
pub const DERIVATION_BYTES: usize = 33_554_432;
/// The bytes of a schedule's text, and of a value's.
pub const SCHEDULE_BYTES: usize = 8_388_608;
/// The events of a schedule.
pub const EVENTS: u32 = 20_000;
/// The replicas of a run.
pub const REPLICAS: u32 = 64;
/// The nodes of a value that is read.
pub const VALUE_NODES: usize = 65_536;
/// The nodes of a type that is met in checking.
pub const TYPE_NODES: u64 = 20_000;
/// The depth of a type that is met in checking.
pub const TYPE_DEPTH: u32 = 400;
/// The nodes of a term, or of a live variable's type, in a sequent, types included.
pub const SEQUENT_NODES: u64 = 20_000;
/// The depth of a term, or of a live variable's type, in a sequent, types included.
pub const SEQUENT_DEPTH: u32 = 400;
/// The facts of a sequent.
pub const FACTS: usize = 1_000;
/// The numbers of variables that a sequent has given out.
pub const VARIABLES: u32 = 1_000;
/// The data variables of a clause.
pub const CLAUSE_VARIABLES: usize = 8;
/// The premises of a lemma.
pub const PREMISES: usize = 8;
/// The depth of a term, or of a type, that stands in a row of a derivation.
pub const ROW_DEPTH: u32 = 400;
/// The most splits that a search may be asked for.
pub const MOST_SPLITS: u8 = 20;
/// The splits of a search that is asked for no number of them.
pub const DEFAULT_SPLITS: u8 = 12;
/// The most steps that a search may be asked for.
pub const MOST_STEPS: u8 = 3;
/// The steps of a search that is asked for no number of them.
pub const DEFAULT_STEPS: u8 = 1;
/// The most calls that an evaluation, or an event of a run, may be given.
pub const MOST_CALLS: u64 = 1_000_000_000;
/// The calls of an evaluation, or of an event, that is given no number of them.
pub const DEFAULT_CALLS: u64 = 1_000_000;
/// The sets of a demo.
pub const DEMO_SETS: u32 = 40;
