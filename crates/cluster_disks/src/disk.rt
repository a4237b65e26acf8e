//! One disk of a rack: lent, and its journal opened.

ghost use Rattle.std.specs.Prelude.{◌≡◌, ◌≤◌, None, IfOk, IfErr, OnOk, OnErr};
ghost use Rattle.disk_base.specs.Lending.{OthersStay};
ghost use Rattle.cluster_disks.specs.Lent.{disks, lain};
ghost use Rattle.cluster_disks.specs.Opened.{FailsToOpen, IsOpened, IsReturned};

use crate::stop::OpenStop;
use disk_base::{DiskError, Rack};
use segment_journal::SegmentJournal;
use std::alloc::Global;

/// Opens the journal of the disk that a rack lends under a number. After an error it lies in the rack again.
pub fn open_disk<Q: Rack>(
    alloc: Global,
    number: u32,
    rack: &mut Q,
) -> Result<SegmentJournal<Q::D>, OpenStop>
    ensures opened { IfOk result (λ j. IsOpened (disks Q.D.reads Q.D.may_leave Q.D.keeps_synced Q.D.faults) (lain Q.disk_at Q.disk_faults Q.faults rack.old number) j) }
    ensures lent { OnOk result (Q.lent_under rack.new number None) }
    ensures fails { IfErr result (FailsToOpen (disks Q.D.reads Q.D.may_leave Q.D.keeps_synced Q.D.faults) number
        (lain Q.disk_at Q.disk_faults Q.faults rack.old number) (lain Q.disk_at Q.disk_faults Q.faults rack.new number)) }
    ensures back { OnErr result (IsReturned (disks Q.D.reads Q.D.may_leave Q.D.keeps_synced Q.D.faults)
        (lain Q.disk_at Q.disk_faults Q.faults rack.old number) (lain Q.disk_at Q.disk_faults Q.faults rack.new number)) }
    ensures others { OthersStay Q.lent_under Q.disk_faults Q.disk_at rack.old rack.new number }
    ensures later { Q.faults rack.old ≤ Q.faults rack.new }
{
    let disk = match rack.lend(None, number) {
        Ok(disk) => disk,
        Err(DiskError::Failed) => return Err(OpenStop::Unopened { disk: number }),
        Err(DiskError::Memory) => return Err(OpenStop::Memory),
    };
    match SegmentJournal::load(alloc, disk) {
        Ok(journal) => return Ok(journal),
        Err((fault, disk)) => {
            rack.give_back(number, disk);
            return Err(OpenStop::unread(number, fault));
        }
    }
}
