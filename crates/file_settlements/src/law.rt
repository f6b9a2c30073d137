//! What settlements are where no file keeps a journal of images.
ghost use Rattle.std.specs.Prelude.{ℕ, List, Bool, Option};
ghost use Rattle.journal_format.specs.journal_model.Entries.{Entry};
ghost use Rattle.unit_table.specs.Units.{OpenUnit};
ghost use Rattle.vms_base.specs.declared.ids.Serial.{Serial};
ghost use Rattle.vms_base.specs.declared.ids.Tid.{Tid};
ghost use Rattle.volume.specs.State.{VolumeState};
ghost use Rattle.volume_format.specs.declared.home.Ending.{Ending};
ghost use Rattle.unit_journal.specs.Settling.{MakesSettlement};
ghost use Rattle.file_settlements.specs.Settling.{KeepNone, SettlesFiles};

/// Where none of the files that take part keeps a journal of images, a settlement in their journals is one without images, and the other way round.
pub fn settlements_without_images()
    ensures plain { (files : List Bool) (tid : Tid) (serial : Serial) (ending : Ending) (moment : ℕ) (e : Option Entry) (left : List (Option OpenUnit)) (v made : VolumeState) → KeepNone files v.catalog.heads → SettlesFiles files tid serial ending moment e left v made → MakesSettlement tid serial ending moment e left v made }
    ensures back { (files : List Bool) (tid : Tid) (serial : Serial) (ending : Ending) (moment : ℕ) (e : Option Entry) (left : List (Option OpenUnit)) (v made : VolumeState) → KeepNone files v.catalog.heads → MakesSettlement tid serial ending moment e left v made → SettlesFiles files tid serial ending moment e left v made }
{}
