//! What a plan asks of the drivers, as text.
ghost use Rattle.std.specs.Prelude.{◌≡◌, ◌++◌, List, ℕ, decimal, slice_get, unwrap_or, IfOk, IsOkAnd, OnOk, []};
ghost use Rattle.std.specs.List.{flat_map};
ghost use Rattle.kl_ask.specs.declared.settings.JoinHow.TheVariants as way;
ghost use Rattle.kl_value.specs.Written.{text_of};
ghost use Rattle.kl_plan.specs.Joins.{join_view, keys_view};
ghost use Rattle.kl_plan.specs.Nodes.{view, nodes_view, fields_view};
ghost use Rattle.kl_plan.specs.Numbers.{scans_in, scans_of_nodes, scans_of_fields, scans_of_branches, scans_of_key};
ghost use Rattle.kl_plan.specs.Numbers.{memos_in, memos_of_nodes, memos_of_fields, memos_of_branches, memos_of_key};
ghost use Rattle.kl_plan.specs.Joins.{other_node};
ghost use Rattle.kl_tools.specs.Explained.{Tells, ask_text, asked_text, explained, join_line, join_lines, join_lines_of_branches};
ghost use Rattle.kl_tools.specs.Explained.{join_lines_of_fields, join_lines_of_key, join_lines_of_nodes, keep_text, kind_word};
ghost use Rattle.kl_tools.specs.Explained.{labels_text, memo_line, more_tests, on_text, right_text, scan_line, sign_of};
ghost use Rattle.kl_tools.specs.Explained.{test_text, way_word, where_text};

use itoa::Buffer;
use kl_ask::{Ask, Cmp, ColTest, Driver, JoinHow, Right, name_boxed};
use kl_base::{Box as Part, Label, NoMemory, Text};
use kl_exchange::print;
use kl_outside::MemSink;
use kl_plan::{Join, JoinKey, Plan, Scan};
use kl_value::{Kind, Value};
use std::alloc::Global;

/// The drivers that a plan asks.
pub type Drivers = Vec<Box<dyn Driver>>;

/// What contracts see of drivers whose names are told.
pub trait SeenNames {
    ghost names: { Self → List (List ℕ) };
}

impl SeenNames for Drivers {
    ghost use Rattle.std.specs.Prelude.{map};

    ghost names = { λ ds. map (λ d. ((Driver-box d).state d.value).kind.name) ds.items };
}

/// The lines of scans, of joins and of memos.
#[derive(Drop)]
pub struct Lines {
    scans: Vec<u8>,
    joins: Vec<u8>,
    memos: Vec<u8>,
}

impl Lines {
    // No line is told yet. Takes no memory.
    fn new(alloc: Global) -> Lines
        ensures scans { result.scans.items ≡ [] }
        ensures joins { result.joins.items ≡ [] }
        ensures memos { result.memos.items ≡ [] }
    {
        Lines {
            scans: Vec::new(alloc),
            joins: Vec::new(alloc),
            memos: Vec::new(alloc),
        }
    }

    // All lines: first those of scans, then those of joins, then those of memos.
    fn text(self) -> Result<Text, NoMemory>
        ensures { IfOk result (λ text. text ≡ self.scans.items ++ (self.joins.items ++ self.memos.items)) }
    {
        let mut text = self.scans;
        text.extend_from_slice(&self.joins)?;
        text.extend_from_slice(&self.memos)?;
        Ok(Text::of(text))
    }
}

/// What a plan asks of these drivers, a line each: first its scans, in the order of their numbers, then its joins, then its
/// memos.
///
/// - `scan I as KIND DRIVER rows SOURCE keep L1 L2 where T and T`, without ` keep` where no column is kept, and without
///   ` where` where nothing is tested. A test is a column, a sign, and a column or the canonical text of a constant.
/// - `scan I as KIND DRIVER sql TEXT`, of a statement.
/// - `join I block scan J`, or `join I index scan J on LABEL`.
/// - `memo I`.
///
/// # Errors
/// Want of memory.
pub fn explain(alloc: Global, plan: &Plan, drivers: &Drivers) -> Result<Text, NoMemory>
    ensures { IfOk result (λ text. text ≡ explained (⟦<Drivers as SeenNames>⟧.names drivers.now) (view plan.now)) }
{
    let names = names_of(alloc, drivers)?;
    lines_of(alloc, plan, &names)?.text()
}

// The lines of a plan, where the drivers have these names.
fn lines_of(alloc: Global, plan: &Plan, names: &[Text]) -> Result<Lines, NoMemory>
    ensures scans { IfOk result (λ lines. lines.scans.items ≡ flat_map (scan_line names.now) (scans_in (view plan.now))) }
    ensures joins { IfOk result (λ lines. lines.joins.items ≡ join_lines (view plan.now)) }
    ensures memos { IfOk result (λ lines. lines.memos.items ≡ flat_map memo_line (memos_in (view plan.now))) }
{
    let mut lines = Lines::new(alloc);
    tell(alloc, plan, names, &mut lines)?;
    Ok(lines)
}

fn names_of(alloc: Global, drivers: &Drivers) -> Result<Vec<Text>, NoMemory>
    ensures { IfOk result (λ names. names.items ≡ ⟦<Drivers as SeenNames>⟧.names drivers.now) }
{
    let mut names = Vec::new(alloc);
    'drivers: for driver in drivers {
        names.push(Text::of(Vec::from_slice(alloc, name_boxed(driver))?))?;
    }
    Ok(names)
}

#[cycle(tell)]
fn tell(alloc: Global, plan: &Plan, names: &[Text], lines: &mut Lines) -> Result<(), NoMemory>
    ensures { OnOk result (Tells names.now (scans_in (view plan.now))
        (join_lines (view plan.now)) (memos_in (view plan.now)) lines.old lines.new) }
{
    match plan {
        Plan::Plain(_) | Plan::Var(_) => Ok(()),
        Plan::Rec(fields) => tell_labelled(alloc, fields.slice(), names, lines),
        Plan::Proj(_, part) | Plan::Inj(_, part) => tell_part(alloc, part, names, lines),
        Plan::Case(subject, branches, other) => {
            let told = tell_part(alloc, subject, names, lines);
            let told = tell_branches(alloc, told, branches.slice(), names, lines);
            tell_other(alloc, told, other, names, lines)
        }
        Plan::Make(_, plans) | Plan::Prim(_, plans) => {
            tell_all(alloc, plans.slice(), names, lines)
        }
        Plan::Union(first, second) => {
            let told = tell_part(alloc, first, names, lines);
            tell_next(alloc, told, second, names, lines)
        }
        Plan::Ext(_, body, source) => {
            let told = tell_part(alloc, source, names, lines);
            tell_next(alloc, told, body, names, lines)
        }
        Plan::If(condition, yes, no) => {
            let told = tell_part(alloc, condition, names, lines);
            let told = tell_next(alloc, told, yes, names, lines);
            tell_next(alloc, told, no, names, lines)
        }
        Plan::Let(bound, body) => {
            let told = tell_part(alloc, bound, names, lines);
            tell_next(alloc, told, body, names, lines)
        }
        Plan::Scan(scan) => put_scan(alloc, scan, names, &mut lines.scans),
        Plan::Join(join) => tell_join(alloc, join.get(), names, lines),
        Plan::Memo(number, _, part) => {
            let told = put_memo(*number, &mut lines.memos);
            tell_next(alloc, told, part, names, lines)
        }
    }
}

#[cycle(tell)]
fn tell_part(
    alloc: Global,
    part: &Part<Plan>,
    names: &[Text],
    lines: &mut Lines,
) -> Result<(), NoMemory>
    ensures { OnOk result (Tells names.now (scans_in (view part.now))
        (join_lines (view part.now)) (memos_in (view part.now)) lines.old lines.new) }
{
    tell(alloc, part.get(), names, lines)
}

// These take what came of the part before theirs, so that `tell` ends in one place for each form.
#[cycle(tell)]
fn tell_next(
    alloc: Global,
    before: Result<(), NoMemory>,
    part: &Part<Plan>,
    names: &[Text],
    lines: &mut Lines,
) -> Result<(), NoMemory>
    ensures { OnOk result (IsOkAnd before (λ _. Tells names.now (scans_in (view part.now))
        (join_lines (view part.now)) (memos_in (view part.now)) lines.old lines.new)) }
{
    before?;
    tell(alloc, part.get(), names, lines)
}

#[cycle(tell)]
fn tell_branches(
    alloc: Global,
    before: Result<(), NoMemory>,
    branches: &[(Label, Plan)],
    names: &[Text],
    lines: &mut Lines,
) -> Result<(), NoMemory>
    ensures { OnOk result (IsOkAnd before (λ _. Tells names.now (scans_of_fields (fields_view branches.now))
        (join_lines_of_fields (fields_view branches.now)) (memos_of_fields (fields_view branches.now)) lines.old lines.new)) }
{
    before?;
    tell_labelled(alloc, branches, names, lines)
}

#[cycle(tell)]
fn tell_other(
    alloc: Global,
    before: Result<(), NoMemory>,
    other: &Option<Part<Plan>>,
    names: &[Text],
    lines: &mut Lines,
) -> Result<(), NoMemory>
    ensures { OnOk result (IsOkAnd before (λ _. Tells names.now
        (scans_of_branches (other_node other.now)) (join_lines_of_branches (other_node other.now))
        (memos_of_branches (other_node other.now)) lines.old lines.new)) }
{
    before?;
    match other {
        Some(other) => tell(alloc, other.get(), names, lines),
        None => Ok(()),
    }
}

#[cycle(tell)]
fn tell_join(alloc: Global, join: &Join, names: &[Text], lines: &mut Lines) -> Result<(), NoMemory>
    ensures { OnOk result (Tells names.now (scans_in (join_view join.now))
        (join_lines (join_view join.now)) (memos_in (join_view join.now)) lines.old lines.new) }
{
    put_join(
        join.number,
        join.how,
        join.inner.number,
        &join.key,
        &mut lines.joins,
    )?;
    tell(alloc, &join.outer, names, lines)?;
    tell_all(alloc, join.conds.slice(), names, lines)?;
    tell_key(alloc, &join.key, names, lines)?;
    put_scan(alloc, &join.inner, names, &mut lines.scans)?;
    tell(alloc, &join.body, names, lines)
}

#[cycle(tell)]
fn tell_key(
    alloc: Global,
    key: &Option<JoinKey>,
    names: &[Text],
    lines: &mut Lines,
) -> Result<(), NoMemory>
    ensures { OnOk result (Tells names.now (scans_of_key (keys_view key.now))
        (join_lines_of_key (keys_view key.now)) (memos_of_key (keys_view key.now)) lines.old lines.new) }
{
    match key {
        Some(key) => tell(alloc, &key.value, names, lines),
        None => Ok(()),
    }
}

#[cycle(tell)]
fn tell_all(
    alloc: Global,
    plans: &[Plan],
    names: &[Text],
    lines: &mut Lines,
) -> Result<(), NoMemory>
    ensures { OnOk result (Tells names.now (scans_of_nodes (nodes_view plans.now))
        (join_lines_of_nodes (nodes_view plans.now)) (memos_of_nodes (nodes_view plans.now)) lines.old lines.new) }
{
    'plans: for plan in plans {
        tell(alloc, plan, names, lines)?;
    }
    Ok(())
}

#[cycle(tell)]
fn tell_labelled(
    alloc: Global,
    parts: &[(Label, Plan)],
    names: &[Text],
    lines: &mut Lines,
) -> Result<(), NoMemory>
    ensures { OnOk result (Tells names.now (scans_of_fields (fields_view parts.now))
        (join_lines_of_fields (fields_view parts.now)) (memos_of_fields (fields_view parts.now)) lines.old lines.new) }
{
    'parts: for part in parts {
        tell(alloc, &part.1, names, lines)?;
    }
    Ok(())
}

// A join of this number, over the scan of that number.
fn put_join(
    number: u32,
    how: JoinHow,
    scan: u32,
    key: &Option<JoinKey>,
    out: &mut Vec<u8>,
) -> Result<(), NoMemory>
    ensures { OnOk result (out.new.items ≡ out.old.items ++ join_line number how scan (keys_view key.now)) }
{
    put_numbered(b"join ", number, out)?;
    put(b" ", out)?;
    put(way_word(how), out)?;
    put_numbered(b" scan ", scan, out)?;
    put_on(how, key, out)?;
    put(b"\n", out)
}

fn way_word(how: JoinHow) -> &'static [u8]
    ensures { result.now ≡ way_word how }
{
    match how {
        JoinHow::Block => b"block",
        JoinHow::Index => b"index",
    }
}

// The label of the key by which an index is used: there is none where rows are joined by blocks.
fn put_on(how: JoinHow, key: &Option<JoinKey>, out: &mut Vec<u8>) -> Result<(), NoMemory>
    ensures { OnOk result (out.new.items ≡ out.old.items ++ on_text how (keys_view key.now)) }
{
    match how {
        JoinHow::Block => Ok(()),
        JoinHow::Index => put_key(key, out),
    }
}

fn put_key(key: &Option<JoinKey>, out: &mut Vec<u8>) -> Result<(), NoMemory>
    ensures { OnOk result (out.new.items ≡ out.old.items ++ on_text way.Index (keys_view key.now)) }
{
    match key {
        Some(key) => {
            put(b" on ", out)?;
            put(key.label.slice(), out)
        }
        None => Ok(()),
    }
}

fn put_memo(number: u32, out: &mut Vec<u8>) -> Result<(), NoMemory>
    ensures { OnOk result (out.new.items ≡ out.old.items ++ memo_line number) }
{
    put_numbered(b"memo ", number, out)?;
    put(b"\n", out)
}

fn put_scan(alloc: Global, scan: &Scan, names: &[Text], out: &mut Vec<u8>) -> Result<(), NoMemory>
    ensures { OnOk result (out.new.items ≡ out.old.items
        ++ scan_line names.now scan.now) }
{
    put_numbered(b"scan ", scan.number, out)?;
    put(b" as ", out)?;
    put(kind_word(scan.kind), out)?;
    put_asked(alloc, scan, names, out)?;
    put(b"\n", out)
}

fn put_asked(alloc: Global, scan: &Scan, names: &[Text], out: &mut Vec<u8>) -> Result<(), NoMemory>
    ensures { OnOk result (out.new.items ≡ out.old.items ++ asked_text names.now scan.now) }
{
    put(b" ", out)?;
    put(name_at(names, scan.driver), out)?;
    put_ask(alloc, &scan.ask, out)
}

// The name at a place, if there is one.
fn name_at(names: &[Text], place: u32) -> &[u8]
    ensures { result.now ≡ unwrap_or (slice_get names.now place) [] }
{
    match names.get(place as usize) {
        Some(name) => name.slice(),
        None => b"",
    }
}

fn kind_word(kind: Kind) -> &'static [u8]
    ensures { result.now ≡ kind_word kind }
{
    match kind {
        Kind::Set => b"set",
        Kind::Bag => b"bag",
        Kind::List => b"list",
    }
}

fn put_ask(alloc: Global, ask: &Ask, out: &mut Vec<u8>) -> Result<(), NoMemory>
    ensures { OnOk result (out.new.items ≡ out.old.items ++ ask_text ask.now) }
{
    match ask {
        Ask::Rows {
            source,
            keep,
            tests,
        } => {
            put(b" rows ", out)?;
            put(source.slice(), out)?;
            put_keep(keep.slice(), out)?;
            put_where(alloc, tests.slice(), out)
        }
        Ask::Sql { text } => {
            put(b" sql ", out)?;
            put(text.slice(), out)
        }
    }
}

fn put_keep(keep: &[Label], out: &mut Vec<u8>) -> Result<(), NoMemory>
    ensures { OnOk result (out.new.items ≡ out.old.items ++ keep_text keep.now) }
{
    match keep {
        [] => Ok(()),
        _ => {
            put(b" keep", out)?;
            put_labels(keep, out)
        }
    }
}

fn put_labels(labels: &[Label], out: &mut Vec<u8>) -> Result<(), NoMemory>
    ensures { OnOk result (out.new.items ≡ out.old.items ++ labels_text labels.now) }
{
    'labels: for label in labels {
        put(b" ", out)?;
        put(label.slice(), out)?;
    }
    Ok(())
}

fn put_where(alloc: Global, tests: &[ColTest], out: &mut Vec<u8>) -> Result<(), NoMemory>
    ensures { OnOk result (out.new.items ≡ out.old.items ++ where_text tests.now) }
{
    match tests {
        [] => Ok(()),
        [first, others @ ..] => {
            put(b" where ", out)?;
            put_test(alloc, first, out)?;
            put_more_tests(alloc, others, out)
        }
    }
}

// The tests behind the first.
fn put_more_tests(alloc: Global, tests: &[ColTest], out: &mut Vec<u8>) -> Result<(), NoMemory>
    ensures { OnOk result (out.new.items ≡ out.old.items ++ more_tests tests.now) }
{
    'tests: for test in tests {
        put(b" and ", out)?;
        put_test(alloc, test, out)?;
    }
    Ok(())
}

fn put_test(alloc: Global, test: &ColTest, out: &mut Vec<u8>) -> Result<(), NoMemory>
    ensures { OnOk result (out.new.items ≡ out.old.items ++ test_text test.now) }
{
    put(test.left.slice(), out)?;
    put(b" ", out)?;
    put(sign(test.op), out)?;
    put(b" ", out)?;
    put_right(alloc, &test.right, out)
}

fn sign(op: Cmp) -> &'static [u8]
    ensures { result.now ≡ sign_of op }
{
    match op {
        Cmp::Eq => b"=",
        Cmp::Ne => b"<>",
        Cmp::Lt => b"<",
        Cmp::Le => b"<=",
        Cmp::Gt => b">",
        Cmp::Ge => b">=",
    }
}

fn put_right(alloc: Global, right: &Right, out: &mut Vec<u8>) -> Result<(), NoMemory>
    ensures { OnOk result (out.new.items ≡ out.old.items ++ right_text right.now) }
{
    match right {
        Right::Col(label) => put(label.slice(), out),
        Right::Const(value) => put_value(alloc, value, out),
    }
}

// The canonical text of a value. A sink in memory that no call has listed refuses only for want of memory.
fn put_value(alloc: Global, value: &Value, out: &mut Vec<u8>) -> Result<(), NoMemory>
    ensures { OnOk result (out.new.items ≡ out.old.items ++ text_of value.now) }
{
    let mut sink = MemSink::new(alloc);
    match print(value, &mut sink) {
        Ok(()) => put(sink.bytes(), out),
        Err(_) => Err(NoMemory),
    }
}

fn put(piece: &[u8], out: &mut Vec<u8>) -> Result<(), NoMemory>
    ensures { OnOk result (out.new.items ≡ out.old.items ++ piece.now) }
{
    out.extend_from_slice(piece)?;
    Ok(())
}

fn put_numbered(word: &[u8], number: u32, out: &mut Vec<u8>) -> Result<(), NoMemory>
    ensures { OnOk result (out.new.items ≡ out.old.items ++ (word.now ++ decimal number)) }
{
    put(word, out)?;
    put(Buffer::new().format(number).as_bytes(), out)
}
