//! The top calls.

ghost use Rattle.std.specs.Prelude.{◌≡◌, ◌⊎◌, ℕ, ◌≤◌, None, Ok, Err, IfOk, IfErr, false, map, string_bytes};
ghost use Rattle.log_base.specs.Shape.{shape};
ghost use Rattle.disk_base.specs.Lending.{NumberStays};
ghost use Rattle.command_words.specs.Commands.{Spells};
ghost use Rattle.command_words.specs.Offered.{IsOffered, Offers};
ghost use Rattle.command_words.specs.declared.command.Command.TheVariants.{Check, Cluster, Make, Run};
ghost use Rattle.command_words.specs.declared.command.Options.{Options};
ghost use Rattle.cluster_disks.specs.Lent.{IsDisk, StaysBut, disks, lain};
ghost use Rattle.cluster_disks.specs.Opened.{AreLater};
ghost use Rattle.scalog_run.specs.Checking.{Checked, sourcing};
ghost use Rattle.scalog_run.specs.Complete.{ServesAll};
ghost use Rattle.scalog_run.specs.Making.{SendsMade};
ghost use Rattle.scalog_run.specs.Output.{Sends, bad_words, fault_spelling, sinking};
ghost use Rattle.scalog_run.specs.Quiet.{AnswersAsLog};
ghost use Rattle.scalog_run.specs.Report.{report_for};
ghost use Rattle.scalog_run.specs.Run.{ComesTo, Ran, world};
ghost use Rattle.scalog_run.specs.RunCluster.{RanCluster};
ghost use Rattle.scalog_run.specs.Words.{IsUnheard, IsUnused};

use crate::answering::answer_items;
use crate::checking::check_history;
use crate::fault::{FaultFrame, RunFault};
use crate::making::make_items;
use crate::sending::{send_bytes, send_fault, send_frame};
use crate::serving::run_cluster;
use crate::status;
use command_words::{Offered, Options, WordsFault, read_offered};
use disk_base::Rack;
use item_input::read_items;
use log_base::{Sink, Source};
use node_threads::OpenGate;
use std::alloc::Global;
use std::sync::Wait;
use std::thread::Threads;

/// What tells that the words are no command.
const NO_COMMAND: FaultFrame = FaultFrame {
    status: status::BAD_WORDS,
    cause: 0,
    which: 0,
    at: 0,
};

/// Does all that the program does, and answers its status. The words are those after the program's
/// name. A cluster runs in threads, and so it may wait.
pub fn scalog<R: Threads + Wait + Sync, S: Source, K: Sink, Q: Rack>(
    rt: &R,
    alloc: Global,
    words: &[String],
    source: &mut S,
    sink: &mut K,
    rack: &mut Q,
) -> u8
where
    Q::D: Drop,
    ensures bad_words { ¬ Offers (map string_bytes words.now)
        → Sends (fault_spelling bad_words) 2 (sinking (K.taken sink.old) (K.faults sink.old)) (sinking (K.taken sink.new) (K.faults sink.new)) result
        ⊎ IsUnheard (map string_bytes words.now) (sinking (K.taken sink.old) (K.faults sink.old)) (sinking (K.taken sink.new) (K.faults sink.new)) result }
    ensures only_bad_words { result ≡ 2 → ¬ Offers (map string_bytes words.now) }
    ensures nothing_done { ¬ Offers (map string_bytes words.now) →
        (world (S.left source.new) (S.faults source.new) (lain Q.disk_at Q.disk_faults Q.faults rack.new))
        ≡ (world (S.left source.old) (S.faults source.old) (lain Q.disk_at Q.disk_faults Q.faults rack.old)) }
    ensures command { (options : Options) → Spells (map string_bytes words.now) (Run options) → IsOffered (Run options)
        → Ran (disks Q.D.reads Q.D.may_leave Q.D.keeps_synced Q.D.faults) (shape options.config) options.run (report_for options.brief)
        (world (S.left source.old) (S.faults source.old) (lain Q.disk_at Q.disk_faults Q.faults rack.old))
        (world (S.left source.new) (S.faults source.new) (lain Q.disk_at Q.disk_faults Q.faults rack.new))
        (sinking (K.taken sink.old) (K.faults sink.old)) (sinking (K.taken sink.new) (K.faults sink.new)) result }
    ensures quiet { (options : Options) → Spells (map string_bytes words.now) (Run options) → IsOffered (Run options)
        → AnswersAsLog (disks Q.D.reads Q.D.may_leave Q.D.keeps_synced Q.D.faults) (shape options.config) options.run (report_for options.brief)
        (world (S.left source.old) (S.faults source.old) (lain Q.disk_at Q.disk_faults Q.faults rack.old))
        (world (S.left source.new) (S.faults source.new) (lain Q.disk_at Q.disk_faults Q.faults rack.new))
        (sinking (K.taken sink.old) (K.faults sink.old)) (sinking (K.taken sink.new) (K.faults sink.new)) result }
    ensures cluster { (options : Options) → Spells (map string_bytes words.now) (Cluster options) → IsOffered (Cluster options)
        → RanCluster (disks Q.D.reads Q.D.may_leave Q.D.keeps_synced Q.D.faults) (shape options.config) options.run options.workers
        (world (S.left source.old) (S.faults source.old) (lain Q.disk_at Q.disk_faults Q.faults rack.old))
        (world (S.left source.new) (S.faults source.new) (lain Q.disk_at Q.disk_faults Q.faults rack.new))
        (sinking (K.taken sink.old) (K.faults sink.old)) (sinking (K.taken sink.new) (K.faults sink.new)) result }
    ensures complete { (options : Options) → Spells (map string_bytes words.now) (Cluster options) → IsOffered (Cluster options)
        → ServesAll (disks Q.D.reads Q.D.may_leave Q.D.keeps_synced Q.D.faults) (shape options.config) options.run options.workers
        (world (S.left source.old) (S.faults source.old) (lain Q.disk_at Q.disk_faults Q.faults rack.old))
        (world (S.left source.new) (S.faults source.new) (lain Q.disk_at Q.disk_faults Q.faults rack.new))
        (sinking (K.taken sink.old) (K.faults sink.old)) (sinking (K.taken sink.new) (K.faults sink.new)) result }
    ensures check { Spells (map string_bytes words.now) Check
        → Checked (sourcing (S.left source.old) (S.faults source.old)) (sourcing (S.left source.new) (S.faults source.new))
        (sinking (K.taken sink.old) (K.faults sink.old)) (sinking (K.taken sink.new) (K.faults sink.new)) result }
    ensures unlent { Spells (map string_bytes words.now) Check
        → lain Q.disk_at Q.disk_faults Q.faults rack.new ≡ lain Q.disk_at Q.disk_faults Q.faults rack.old }
    ensures make { (options : Options) (seed count : ℕ) → Spells (map string_bytes words.now) (Make options seed count)
        → SendsMade (shape options.config) seed count (sinking (K.taken sink.old) (K.faults sink.old)) (sinking (K.taken sink.new) (K.faults sink.new)) result }
    ensures untouched { (options : Options) (seed count : ℕ) → Spells (map string_bytes words.now) (Make options seed count) →
        (world (S.left source.new) (S.faults source.new) (lain Q.disk_at Q.disk_faults Q.faults rack.new))
        ≡ (world (S.left source.old) (S.faults source.old) (lain Q.disk_at Q.disk_faults Q.faults rack.old)) }
    ensures others { (number : ℕ) → IsUnused (map string_bytes words.now) number → NumberStays Q.lent_under Q.disk_faults Q.disk_at rack.old rack.new number }
{
    let command = match read_offered(alloc, words) {
        Ok(command) => command,
        Err(WordsFault::NoCommand) => return send_frame(sink, NO_COMMAND),
        Err(WordsFault::Memory) => return status::OUT_OF_MEMORY,
    };
    match command {
        Offered::Run(options) => run_items(alloc, &options, source, sink, rack),
        Offered::Cluster(options) => {
            run_cluster(rt, alloc, &options, source, sink, rack, &OpenGate)
        }
        Offered::Check => check_history(alloc, source, sink),
        Offered::Make {
            options,
            seed,
            count,
        } => make_items(alloc, &options, seed, count, sink),
    }
}

/// Answers the items of a source over the disks of a rack, and sends the report that the options ask for to a
/// sink, or the frame of a fault. All items are read before a disk is lent, and all disks are handed back before
/// anything is sent.
pub fn run_items<S: Source, K: Sink, Q: Rack>(
    alloc: Global,
    options: &Options,
    source: &mut S,
    sink: &mut K,
    rack: &mut Q,
) -> u8
where
    Q::D: Drop,
    requires some_run { 1 ≤ options.now.run }
    requires run { options.now.run ≤ 1000000 }
    requires folder { options.now.folder ≡ None }
    ensures run { Ran (disks Q.D.reads Q.D.may_leave Q.D.keeps_synced Q.D.faults) (shape options.now.config) options.now.run (report_for options.now.brief)
        (world (S.left source.old) (S.faults source.old) (lain Q.disk_at Q.disk_faults Q.faults rack.old))
        (world (S.left source.new) (S.faults source.new) (lain Q.disk_at Q.disk_faults Q.faults rack.new))
        (sinking (K.taken sink.old) (K.faults sink.old)) (sinking (K.taken sink.new) (K.faults sink.new)) result }
    ensures quiet { AnswersAsLog (disks Q.D.reads Q.D.may_leave Q.D.keeps_synced Q.D.faults) (shape options.now.config) options.now.run (report_for options.now.brief)
        (world (S.left source.old) (S.faults source.old) (lain Q.disk_at Q.disk_faults Q.faults rack.old))
        (world (S.left source.new) (S.faults source.new) (lain Q.disk_at Q.disk_faults Q.faults rack.new))
        (sinking (K.taken sink.old) (K.faults sink.old)) (sinking (K.taken sink.new) (K.faults sink.new)) result }
    ensures others { StaysBut Q.lent_under Q.disk_faults Q.disk_at (IsDisk (shape options.now.config)) rack.old rack.new }
{
    match run_over(alloc, options, source, rack) {
        Ok(output) => send_bytes(sink, &output, status::DONE),
        Err(fault) => send_fault(sink, fault),
    }
}

/// What a run comes to, before anything is sent: its output, or why it has none.
fn run_over<S: Source, Q: Rack>(
    alloc: Global,
    options: &Options,
    source: &mut S,
    rack: &mut Q,
) -> Result<Vec<u8>, RunFault>
where
    Q::D: Drop,
    requires run { (1 ≤ options.now.run) × (options.now.run ≤ 1000000) }
    ensures output { IfOk result (λ output. ComesTo (disks Q.D.reads Q.D.may_leave Q.D.keeps_synced Q.D.faults) (shape options.now.config) options.now.run (report_for options.now.brief)
        (world (S.left source.old) (S.faults source.old) (lain Q.disk_at Q.disk_faults Q.faults rack.old))
        (world (S.left source.new) (S.faults source.new) (lain Q.disk_at Q.disk_faults Q.faults rack.new)) (Ok output.items)) }
    ensures fault { IfErr result (λ fault. ComesTo (disks Q.D.reads Q.D.may_leave Q.D.keeps_synced Q.D.faults) (shape options.now.config) options.now.run (report_for options.now.brief)
        (world (S.left source.old) (S.faults source.old) (lain Q.disk_at Q.disk_faults Q.faults rack.old))
        (world (S.left source.new) (S.faults source.new) (lain Q.disk_at Q.disk_faults Q.faults rack.new)) (Err fault)) }
    ensures later { AreLater (disks Q.D.reads Q.D.may_leave Q.D.keeps_synced Q.D.faults) (shape options.now.config)
        (lain Q.disk_at Q.disk_faults Q.faults rack.old) (lain Q.disk_at Q.disk_faults Q.faults rack.new) }
    ensures others { StaysBut Q.lent_under Q.disk_faults Q.disk_at (IsDisk (shape options.now.config)) rack.old rack.new }
{
    let items = read_items(alloc, options.config, source)?;
    answer_items(alloc, options, &items, rack)
}
