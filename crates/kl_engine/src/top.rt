//! The top call.
ghost use Rattle.std.specs.Prelude.{◌≡◌, ◌<◌, ◌^◌, None, All, length, map, string_bytes, true};
ghost use Rattle.kl_words.specs.Commands.{command_of};
ghost use Rattle.kl_outside.specs.Files.{FilesState};
ghost use Rattle.kl_engine.specs.Answering.{Does, IsIdle, IsRunning, ReadsAgain, RefusesFirst};
ghost use Rattle.kl_engine.specs.Commands.{Files as FromFiles, Made, NamesNoFile, Program, asked, path_of, wants_stats};
ghost use Rattle.kl_engine.specs.Faults.{TookLine, ending, status_of};
ghost use Rattle.kl_engine.specs.Outside.{outside_of};
ghost use Rattle.kl_engine.specs.Planned.{AsksOf, Explains, ExplainsPlan, HasPlan, IsShown, IsUndone, IsUnrun};
ghost use Rattle.kl_engine.specs.Planned.{course_of, how_in, how_of, plan_in, usual_how};
ghost use Rattle.kl_sources.specs.Sources.{kinds_of};
ghost use Rattle.kl_engine.specs.Stats.{handed_in, told_text};
ghost use Rattle.kl_engine.specs.declared.top.Purpose.TheVariants.{Run, Explain, Check, Types};

use crate::check::check;
use crate::drivers::{Drivers, SeenAll};
use crate::explain::explain;
use crate::fault::{Fault, status, tell};
use crate::inputs::{Inputs, made_inputs, read_inputs};
use crate::run::{How, Ran, run};
use crate::show::{show, upgrade};
use crate::stats::{rows_handed, tell_counts};
use crate::types::types;
use kl_ask::{Settings, Trace};
use kl_base::Text;
use kl_outside::{Files, Sink};
use kl_ship::Plan;
use kl_words::{Command, Job, WordsError, read_words};
use std::alloc::Global;

/// What the top call answers.
#[derive(Drop)]
pub struct Answer {
    /// 0: well, and all that the command prints was written. Else that of the fault: 1: the words name no command. 2: the
    /// program is none in scope. 3: the program has no typing. 4: the catalogue is none, or an entry of it has a name that
    /// was used before or is a primitive's, a driver that is not there, or a type that does not suit its driver; or the word
    /// by which a file is upgraded is no type. 5: a source that the program mentions is unreadable as its type; the file that
    /// is shown is no exchange text, or an item lacks the type that its head states; or the file that is upgraded is unreadable
    /// as items of the type. 6: the program means an overflow. 7: a file is missing or could not be read. 8: `out` refused a
    /// write. 9: want of memory. 10: the program or the catalogue has more than 65,536 bytes, one of them or the type of an
    /// upgrade nests deeper than 256, the term of a declaration has more than 4,096 nodes or is deeper than 512, the text of a
    /// scheme has more than 65,536 bytes, a source has more bytes than its driver reads, the file that is shown or upgraded has
    /// more than 17,179,869,184 bytes, or an item or a head of one of these has a bracket inside 256 others. 11: a source
    /// changed while it was read. There is no other.
    pub status: u8,
    /// Why the command did not end well, or none where it did.
    pub fault: Option<Fault>,
    /// The plan by which a program was run, or would have been, had its sources been there, or that was explained. None where a run
    /// or an explanation was refused before, and for every other command.
    pub plan: Option<Plan>,
    /// What was counted while the program ran: the steps in which its term was rewritten, none with `--no-rewrite`; how often each
    /// scan of its plan was started; the executions of joins that ended, with the most rows that a block of one held; and how
    /// many look-ups of subqueries found a value, and how many found none, whose value was kept then.
    pub trace: Trace,
}

/// Does what the words say, which are those of the command line without the program's name: `run`, `explain`, `types`,
/// `check`, `show` and `upgrade`, with the options that `kl_words` reads. `run PROGRAM [CATALOGUE]` prints on `out` the value that the
/// program at the path means over the sources of the catalogue, and a newline. `explain` prints what the plan by which it
/// would be run asks of the drivers, as `kl_tools` says; it attaches and reads no source. `types` prints the principal scheme of
/// each of its declarations, a line each. `check` prints `ok` and a newline where the file is a program in scope. `show FILE` prints
/// the canonical text of each item of the exchange text at the path, each with a newline, as it is read. `upgrade FILE TYPE` prints
/// `type T;` and a newline, where T is the type's text, and then the canonical text of each item, `;` and a newline, as it is read;
/// what it printed with status 0 has, read again, the head T and the same items.
///
/// The refusals come in this order: words, before anything is opened; the program's file, missing or failing, and its
/// length; the same of the catalogue's; the catalogue's text; its entries in their order, of each first its name, then its
/// driver, then its type. Of the program's text come first a byte where no token starts, then tokens that are no program or
/// nest too deep, and then the first breach of the rules of scope. `types`, `explain` and `run` go on: the first declaration whose
/// term is too large, and then the first that has no type, where `explain` ends. `types` ends with a scheme whose text is too
/// long. `run` attaches
/// the sources that the program mentions, in the order of the catalogue, and no others; the first that is unreadable as its
/// type is refused. Last comes an overflow. Of an upgrade the word that is to be a type comes before its file: a byte where no
/// token starts, and then tokens that are no type or nest too deep. Of a file that is shown or upgraded that comes whose place
/// stands first in the file, where a head of another type than is wanted stands at 0 and an item that lacks the type behind the
/// head and the items before it; its bytes behind the limit are not looked at.
///
/// Where a command ends well `out` took exactly its page: of `run` the value and a newline, of `types` and of `check`
/// their lines, of `show` the lines of all items, of `upgrade` the line of the head and those of all items. With `--first N` a list ends with its first N items, also before an
/// overflow, and a set or a bag is cut to its first N. Of an overflow the page is `[|` and the items before it where each
/// type of the program is that of a list, and else empty; of a scheme whose text is too long it is the lines before that
/// one; of a file that is bad, too deep or too long the lines of the items that stand whole and have the type before the place,
/// of `upgrade` behind the line of the head; of every other refusal it is empty. After a fault of reading or writing, after a
/// source that changed and after want of memory `out` took a front of the page.
///
/// A run makes a plan of the term that its program is rewritten to, unless its words say `--no-rewrite`, and runs that; what it
/// prints is what the program means in either case. A list is printed as it is drawn, and what was printed is written out before
/// a source is waited for. With `--first N` no more items are drawn, and to a loop over one source its driver hands fewer rows
/// than are fetched at once more than these items take; so it does where `out` fails, of the items of which the last is not whole
/// on it. With `--first 0` no row is handed for a list, however the run ends. The answer tells the plan, in how many steps the term
/// was rewritten, how often each scan of the plan was started, how its joins were executed, and how often the values of its
/// subqueries were found.
///
/// The drivers are handed in with no source attached and no cursor open. They are left with no cursor open; the sources that
/// a run attached stay attached. A run that is refused before it has a plan leaves them as they were, and prints nothing. No file is
/// left open, and `gen` opens none.
///
/// Each fault is told by a line on `err`; with `--stats` a run that ends well tells what was counted. A write that `err`
/// refuses changes no status.
pub fn kleisli<F: Files, S: Sink, E: Sink>(
    alloc: Global,
    words: &[String],
    files: &mut F,
    drivers: &mut Drivers,
    out: &mut S,
    err: &mut E,
) -> Answer
    requires idle { All IsIdle (⟦<Drivers as SeenAll>⟧.states drivers.old) }
    requires few { length drivers.old.items < 2 ^ 32 }
    ensures does { Does (asked (command_of (map (λ w. string_bytes w) words.now))) result.fault
        (outside_of (F.state files.old) (⟦<Drivers as SeenAll>⟧.states drivers.old) (S.state out.old))
        (outside_of (F.state files.new) (⟦<Drivers as SeenAll>⟧.states drivers.new) (S.state out.new)) }
    ensures status { result.status ≡ status_of result.fault }
    ensures line { let command = command_of (map (λ w. string_bytes w) words.now) in
        TookLine (told_text (wants_stats command) (path_of (asked command)) result.fault result.trace
        (handed_in (⟦<Drivers as SeenAll>⟧.states drivers.old) (⟦<Drivers as SeenAll>⟧.states drivers.new)))
        (E.state err.old) (E.state err.new) }
    ensures plan { let words = command_of (map (λ w. string_bytes w) words.now) in
        HasPlan (how_of words) (asked words) (plan_in result.plan) (course_of result.fault result.trace
        (⟦<Drivers as SeenAll>⟧.states drivers.old) (⟦<Drivers as SeenAll>⟧.states drivers.new) (S.state out.old) (S.state out.new))
        (F.state files.old) (F.state files.new) }
    ensures asks { AsksOf (plan_in result.plan) result.trace.starts (⟦<Drivers as SeenAll>⟧.states drivers.old)
        (⟦<Drivers as SeenAll>⟧.states drivers.new) }
    ensures trace { IsShown (how_of (command_of (map (λ w. string_bytes w) words.now))).settings.block (plan_in result.plan) result.trace }
    ensures silent { IsRunning (asked (command_of (map (λ w. string_bytes w) words.now))) → plan_in result.plan ≡ None
        → S.state out.new ≡ S.state out.old }
    ensures explains { Explains (asked (command_of (map (λ w. string_bytes w) words.now)))
        (kinds_of (⟦<Drivers as SeenAll>⟧.states drivers.old)) (plan_in result.plan) result.fault (S.state out.old) (S.state out.new) }
    ensures no_file { NamesNoFile (asked (command_of (map (λ w. string_bytes w) words.now))) → files.new ≡ files.old }
    ensures type_first { RefusesFirst (asked (command_of (map (λ w. string_bytes w) words.now))) result.fault
        ((files.new ≡ files.old)
        × (⟦<Drivers as SeenAll>⟧.states drivers.new ≡ ⟦<Drivers as SeenAll>⟧.states drivers.old)
        × (out.new ≡ out.old)) }
    ensures again { ReadsAgain (asked (command_of (map (λ w. string_bytes w) words.now))) result.fault (F.state files.old)
        (S.state out.old) (S.state out.new) }
    ensures words_first { command_of (map (λ w. string_bytes w) words.now) ≡ None
        → (files.new ≡ files.old)
        × (⟦<Drivers as SeenAll>⟧.states drivers.new ≡ ⟦<Drivers as SeenAll>⟧.states drivers.old)
        × (out.new ≡ out.old) }
{
    let before = rows_handed(drivers);
    let mut ran = Ran {
        plan: None,
        trace: Trace::new(alloc),
    };
    match read_words(alloc, words) {
        Ok(Command::Run(job)) => {
            let result = do_run(alloc, &job, files, drivers, out, &mut ran);
            let handed = rows_handed(drivers).saturating_sub(before);
            end(result, job.program.slice(), job.stats, ran, handed, err)
        }
        Ok(Command::Explain(job)) => {
            let result = do_explain(alloc, &job, files, drivers, out, &mut ran);
            end(result, job.program.slice(), false, ran, 0, err)
        }
        Ok(Command::Types { program, catalogue }) => {
            let result = do_types(alloc, &program, &catalogue, files, drivers, out);
            end(result, program.slice(), false, ran, 0, err)
        }
        Ok(Command::Check { program, catalogue }) => {
            let result = do_check(alloc, &program, &catalogue, files, drivers, out);
            end(result, program.slice(), false, ran, 0, err)
        }
        Ok(Command::Show { file }) => {
            let result = show(alloc, file.slice(), files, out);
            end(result, file.slice(), false, ran, 0, err)
        }
        Ok(Command::Upgrade { file, ty }) => {
            let result = upgrade(alloc, file.slice(), ty.slice(), files, out);
            end(result, file.slice(), false, ran, 0, err)
        }
        Ok(Command::Gen { seed, size }) => {
            let result = do_gen(alloc, seed, size, drivers, out, &mut ran);
            end(result, b"", false, ran, 0, err)
        }
        Err(WordsError::Usage) => end(Err(Fault::Usage), b"", false, ran, 0, err),
        Err(WordsError::NoMemory) => end(Err(Fault::NoMemory), b"", false, ran, 0, err),
    }
}

/// What is done with a program.
#[derive(Clone, Copy)]
pub enum Purpose {
    /// It is run, and of its result so many first items are wanted, or all.
    Run(Option<u32>),
    /// The lines of its plan are listed, which is made by these settings. It is not run.
    Explain(Settings),
    /// It is read, and its names are looked up.
    Check,
    /// Its types are listed.
    Types,
}

// Tells how a command ended that names this path, or where it ended well what was counted, if that is asked for.
fn end<E: Sink>(
    outcome: Result<(), Fault>,
    path: &[u8],
    stats: bool,
    ran: Ran,
    handed: u128,
    err: &mut E,
) -> Answer
    ensures fault { result.fault ≡ ending outcome }
    ensures status { result.status ≡ status_of (ending outcome) }
    ensures plan { result.plan ≡ ran.plan }
    ensures trace { result.trace ≡ ran.trace }
    ensures line { TookLine (told_text stats path.now (ending outcome) result.trace handed) (E.state err.old) (E.state err.new) }
{
    let Ran { plan, trace } = ran;
    match outcome {
        Ok(()) => {
            if stats {
                tell_counts(&trace, handed, err);
            }
            Answer {
                status: 0,
                fault: None,
                plan,
                trace,
            }
        }
        Err(fault) => {
            tell(&fault, path, err);
            Answer {
                status: status(&fault),
                fault: Some(fault),
                plan,
                trace,
            }
        }
    }
}

// Runs the program that the words name.
fn do_run<F: Files, S: Sink>(
    alloc: Global,
    job: &Job,
    files: &mut F,
    drivers: &mut Drivers,
    out: &mut S,
    ran: &mut Ran,
) -> Result<(), Fault>
    requires idle { All IsIdle (⟦<Drivers as SeenAll>⟧.states drivers.old) }
    requires few { length drivers.old.items < 2 ^ 32 }
    requires fetch { 0 < job.now.settings.fetch }
    requires block { 0 < job.now.settings.block }
    requires unrun { IsUnrun ran.old }
    ensures does { Does (Program (Run job.now.first) (FromFiles job.now.program job.now.catalogue)) (ending result)
        (outside_of (F.state files.old) (⟦<Drivers as SeenAll>⟧.states drivers.old) (S.state out.old))
        (outside_of (F.state files.new) (⟦<Drivers as SeenAll>⟧.states drivers.new) (S.state out.new)) }
    ensures plan { HasPlan (how_in job.now) (Program (Run job.now.first) (FromFiles job.now.program job.now.catalogue))
        (plan_in ran.new.plan) (course_of (ending result) ran.new.trace
        (⟦<Drivers as SeenAll>⟧.states drivers.old) (⟦<Drivers as SeenAll>⟧.states drivers.new) (S.state out.old) (S.state out.new))
        (F.state files.old) (F.state files.new) }
    ensures asks { AsksOf (plan_in ran.new.plan) ran.new.trace.starts (⟦<Drivers as SeenAll>⟧.states drivers.old)
        (⟦<Drivers as SeenAll>⟧.states drivers.new) }
    ensures shows { IsShown job.now.settings.block (plan_in ran.new.plan) ran.new.trace }
    ensures silent { plan_in ran.new.plan ≡ None → S.state out.new ≡ S.state out.old }
{
    match read_inputs(alloc, &job.program, &job.catalogue, drivers, files) {
        Ok(Inputs { text, sources }) => {
            let how = How {
                settings: job.settings,
                first: job.first,
            };
            run(
                alloc,
                text.slice(),
                sources.into_vec(),
                how,
                drivers,
                out,
                ran,
            )
        }
        Err(fault) => Err(fault),
    }
}

// Runs the program over so many made rows of a seed.
fn do_gen<S: Sink>(
    alloc: Global,
    seed: u32,
    size: u32,
    drivers: &mut Drivers,
    out: &mut S,
    ran: &mut Ran,
) -> Result<(), Fault>
    requires idle { All IsIdle (⟦<Drivers as SeenAll>⟧.states drivers.old) }
    requires few { length drivers.old.items < 2 ^ 32 }
    requires unrun { IsUnrun ran.old }
    ensures does { (files : FilesState) → Does (Program (Run None) (Made seed size)) (ending result)
        (outside_of files (⟦<Drivers as SeenAll>⟧.states drivers.old) (S.state out.old))
        (outside_of files (⟦<Drivers as SeenAll>⟧.states drivers.new) (S.state out.new)) }
    ensures plan { (files : FilesState) → HasPlan usual_how (Program (Run None) (Made seed size))
        (plan_in ran.new.plan) (course_of (ending result) ran.new.trace
        (⟦<Drivers as SeenAll>⟧.states drivers.old) (⟦<Drivers as SeenAll>⟧.states drivers.new) (S.state out.old) (S.state out.new))
        files files }
    ensures asks { AsksOf (plan_in ran.new.plan) ran.new.trace.starts (⟦<Drivers as SeenAll>⟧.states drivers.old)
        (⟦<Drivers as SeenAll>⟧.states drivers.new) }
    ensures shows { IsShown usual_how.settings.block (plan_in ran.new.plan) ran.new.trace }
    ensures silent { plan_in ran.new.plan ≡ None → S.state out.new ≡ S.state out.old }
{
    match made_inputs(alloc, seed, size, drivers) {
        Ok(Inputs { text, sources }) => {
            let how = How {
                settings: Settings::usual(),
                first: None,
            };
            run(
                alloc,
                text.slice(),
                sources.into_vec(),
                how,
                drivers,
                out,
                ran,
            )
        }
        Err(fault) => Err(fault),
    }
}

// Explains the program that the words name.
fn do_explain<F: Files, S: Sink>(
    alloc: Global,
    job: &Job,
    files: &mut F,
    drivers: &Drivers,
    out: &mut S,
    ran: &mut Ran,
) -> Result<(), Fault>
    requires few { length drivers.now.items < 2 ^ 32 }
    requires unrun { IsUnrun ran.old }
    ensures does { Does (Program (Explain job.now.settings) (FromFiles job.now.program job.now.catalogue)) (ending result)
        (outside_of (F.state files.old) (⟦<Drivers as SeenAll>⟧.states drivers.now) (S.state out.old))
        (outside_of (F.state files.new) (⟦<Drivers as SeenAll>⟧.states drivers.now) (S.state out.new)) }
    ensures plan { HasPlan (how_in job.now) (Program (Explain job.now.settings) (FromFiles job.now.program job.now.catalogue))
        (plan_in ran.new.plan) (course_of (ending result) ran.new.trace (⟦<Drivers as SeenAll>⟧.states drivers.now)
        (⟦<Drivers as SeenAll>⟧.states drivers.now) (S.state out.old) (S.state out.new)) (F.state files.old) (F.state files.new) }
    ensures lines { ExplainsPlan (kinds_of (⟦<Drivers as SeenAll>⟧.states drivers.now)) (plan_in ran.new.plan) (ending result)
        (S.state out.old) (S.state out.new) }
    ensures asks { AsksOf (plan_in ran.new.plan) ran.new.trace.starts (⟦<Drivers as SeenAll>⟧.states drivers.now)
        (⟦<Drivers as SeenAll>⟧.states drivers.now) }
    ensures shows { IsUndone job.now.settings.block (plan_in ran.new.plan) ran.new.trace }
{
    match read_inputs(alloc, &job.program, &job.catalogue, drivers, files) {
        Ok(inputs) => explain(
            alloc,
            inputs.text.slice(),
            inputs.sources.slice(),
            job.settings,
            drivers,
            out,
            ran,
        ),
        Err(fault) => Err(fault),
    }
}

// Lists the types of a program.
fn do_types<F: Files, S: Sink>(
    alloc: Global,
    program: &Text,
    catalogue: &Option<Text>,
    files: &mut F,
    drivers: &Drivers,
    out: &mut S,
) -> Result<(), Fault>
    requires { length drivers.now.items < 2 ^ 32 }
    ensures { Does (Program Types (FromFiles program.now catalogue.now)) (ending result)
        (outside_of (F.state files.old) (⟦<Drivers as SeenAll>⟧.states drivers.now) (S.state out.old))
        (outside_of (F.state files.new) (⟦<Drivers as SeenAll>⟧.states drivers.now) (S.state out.new)) }
{
    match read_inputs(alloc, program, catalogue, drivers, files) {
        Ok(inputs) => types(alloc, inputs.text.slice(), inputs.sources.slice(), out),
        Err(fault) => Err(fault),
    }
}

// Checks a program.
fn do_check<F: Files, S: Sink>(
    alloc: Global,
    program: &Text,
    catalogue: &Option<Text>,
    files: &mut F,
    drivers: &Drivers,
    out: &mut S,
) -> Result<(), Fault>
    requires { length drivers.now.items < 2 ^ 32 }
    ensures { Does (Program Check (FromFiles program.now catalogue.now)) (ending result)
        (outside_of (F.state files.old) (⟦<Drivers as SeenAll>⟧.states drivers.now) (S.state out.old))
        (outside_of (F.state files.new) (⟦<Drivers as SeenAll>⟧.states drivers.now) (S.state out.new)) }
{
    match read_inputs(alloc, program, catalogue, drivers, files) {
        Ok(inputs) => check(alloc, inputs.text.slice(), inputs.sources.slice(), out),
        Err(fault) => Err(fault),
    }
}
