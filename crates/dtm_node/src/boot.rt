//! A boot: a disk that runs is brought to a volume whose boot count is raised.
ghost use Rattle.std.specs.Prelude.{◌≡◌, ◌<◌, ◌≤◌, ◌^◌, [], true, false, max, option_map, nat_lt};
ghost use Rattle.block_disk.specs.Sizes.{greatest_disk_size, least_disk_size};
ghost use Rattle.vms_model.specs.Limits.{moment_limit};
ghost use Rattle.careful_write.specs.State.{IsIdle};
ghost use Rattle.change_set.specs.Files.{free_frames};
ghost use Rattle.volume.specs.Catalogs.{IsSound};
ghost use Rattle.volume.specs.State.{Holds};
ghost use Rattle.recovery_units.specs.image_room.Room.{images_end};
ghost use Rattle.recovery_units.specs.volume_model.Bars.{first_bar, is_in_ring as is_in_ring_said, is_within as is_within_said, lowest_odd_ring, lowest_odd_root, no_block, odd_ring as odd_ring_said, odd_root as odd_root_said, odd_span as odd_span_said};
ghost use Rattle.transcript.specs.Forms.{HasTime, line_of};
ghost use Rattle.std.specs.Option.{IfSome, IfNone};
ghost use Rattle.world_laws.specs.run_model.Answers.{bar_line};
ghost use Rattle.world_laws.specs.run_model.World.{Node as NodeSaid};
ghost use Rattle.dtm_node.specs.Boots.{BootsTo, IsBootRefusal, IsBooted, IsMounted, IsOpened, IsAwake, IsInRing, IsWide, disk_booted, pool_booted};
ghost use Rattle.recovery_units.specs.Uses.{DiskAdvances};

use block_disk::Disk;
use careful_write::{Down, Group, OpenErr, Store};
use file_base::{FileHead, Organization, Span};
use frame_pool::Pool;
use node_files::write_home;
use node_requests::the_laws;
use transcript::{Form, Quota};
use vms_base::NodeName;
use volume::{MountErr, Volume, sound_volumes_are_valid};

// How often a node is booted, and the greatest moment with which it is, at the most.
const MOST_BOOTS: u32 = 4_294_967_295;

const LATEST_MOMENT: u64 = 24_000_000_000_000;

// The greatest position of a journal with which a node is booted, and the greatest that a journal may end at.
const LAST_POSITION: u64 = 2_305_843_009_213_693_952;

const GREATEST_END: u64 = 4_611_686_018_427_387_904;

// What a volume fails with a journal that does not lie in its ring, and where that of recovery units is.
const JOURNAL_CONDITION: u32 = 6;

const JOURNAL_BLOCK: u32 = 583;

// What a volume fails with an indexed file that has no index over several buckets, or one over a single bucket.
const INDEX_CONDITION: u32 = 11;

// More than the number of any block.
const NO_BLOCK: u64 = 65_536;

const MOST_FILES: u8 = 64;

/// How a boot went: with the volume, or with the parts of a store that are left, and the answer that refuses it or the failure.
#[derive(Drop)]
pub(crate) enum Booted<D: Disk> {
    Up(Volume<D>),
    Refused(D, Group, Pool, Form<'static>),
    Fell(D, Group, Pool, Down),
}

// The greatest position of a journal of a volume.
fn last_position<D: Disk>(volume: &Volume<D>) -> u64
    ensures { result ≡ max volume.now.catalog.ru.end (images_end volume.now.catalog.heads) }
{
    let mut last = volume.ru().end;
    for file in 0..MOST_FILES {
        if let Some(head) = volume.head(file) {
            last = last.max(head.ai.end).max(head.bi.end);
        }
    }
    last
}

// The block at which the root of a file begins, where that is an indexed one with several buckets and no index, or with an index and one bucket; else no
// block.
fn odd_root(head: &FileHead) -> u64
    ensures { result ≡ odd_root_said head.now }
{
    match head.organization {
        Organization::Indexed => {
            if (head.levels == 1) == (head.used == 1) {
                NO_BLOCK
            } else {
                u64::from(head.start) + u64::from(head.root) * u64::from(head.bucket)
            }
        }
        _ => NO_BLOCK,
    }
}

// Whether a journal's entries lie in its ring.
fn is_within(span: &Span) -> bool
    ensures { result ≡ is_within_said span.now }
{
    span.first <= span.end && span.end - span.first <= 512 * u64::from(span.blocks)
}

// The first block of a journal of images that a file has and that does not lie in its ring; else no block.
fn odd_span(marked: bool, span: &Span) -> u64
    ensures { result ≡ odd_span_said marked span.now }
{
    if marked && !is_within(span) {
        u64::from(span.start)
    } else {
        NO_BLOCK
    }
}

// The lower of such blocks of a file's two journals.
fn odd_ring(head: &FileHead) -> u64
    ensures { result ≡ odd_ring_said head.now }
{
    odd_span(head.marks.ai, &head.ai).min(odd_span(head.marks.bi, &head.bi))
}

// The lowest blocks of a volume's files at which a journal of images or a root is odd.
#[derive(Drop)]
struct Lowest {
    ring: u64,
    root: u64,
}

fn lowest_odd<D: Disk>(volume: &Volume<D>) -> Lowest
    ensures ring { result.ring ≡ lowest_odd_ring volume.now.catalog.heads }
    ensures root { result.root ≡ lowest_odd_root volume.now.catalog.heads }
    ensures most { (result.ring ≤ greatest_disk_size) × (result.root ≤ greatest_disk_size) }
{
    let mut ring = NO_BLOCK;
    let mut root = NO_BLOCK;
    for file in 0..MOST_FILES {
        if let Some(head) = volume.head(file) {
            ring = ring.min(odd_ring(head));
            root = root.min(odd_root(head));
        }
    }
    Lowest { ring, root }
}

// Whether the journal's entries lie in its ring, and its positions are low.
fn is_in_ring(span: &Span) -> bool
    ensures told { result ≡ is_in_ring_said span.now }
    ensures wide { IsWide span.now }
    ensures yes { result ≡ true → IsInRing span.now }
    ensures no { result ≡ false → IsInRing span.now → ⊥ }
{
    span.first <= span.end
        && span.end - span.first <= 512 * u64::from(span.blocks)
        && span.end <= GREATEST_END
}

// Why a node is not booted with this volume: its journal is none, or one of a file's images is none, an indexed file has not the index that its buckets want,
// it was booted as often as may be, its greatest moment is too late, or a journal has come too far.
fn refusal<D: Disk>(volume: &Volume<D>) -> Option<Form<'static>>
    ensures refuses { option_map line_of result ≡ option_map (bar_line volume.now.catalog.home.node) (first_bar volume.now.catalog) }
    ensures wide { IsWide volume.now.catalog.ru }
    ensures time { IfSome result HasTime }
    ensures boot { IfSome result (λ form. IsBootRefusal (line_of form)) }
    ensures ring { IfNone result (IsInRing volume.now.catalog.ru) }
    ensures rings { IfNone result (nat_lt (lowest_odd_ring volume.now.catalog.heads) no_block ≡ false) }
    ensures boots { IfNone result (volume.now.catalog.home.boot < 4294967295) }
    ensures moments { IfNone result (volume.now.catalog.home.greatest_moment.0 ≤ moment_limit) }
    ensures end { IfNone result (volume.now.catalog.ru.end ≤ 2 ^ 61) }
    ensures images { IfNone result (images_end volume.now.catalog.heads ≤ 2 ^ 61) }
{
    let home = volume.home();
    if !is_in_ring(volume.ru()) {
        return Some(Form::NoVolume(home.node, JOURNAL_CONDITION, JOURNAL_BLOCK));
    }
    let lowest = lowest_odd(volume);
    if lowest.ring < NO_BLOCK {
        return Some(Form::NoVolume(home.node, JOURNAL_CONDITION, lowest.ring as u32));
    }
    if lowest.root < NO_BLOCK {
        return Some(Form::NoVolume(home.node, INDEX_CONDITION, lowest.root as u32));
    }
    if home.boot == MOST_BOOTS {
        return Some(Form::QuotaExceeded(Quota::Boots, u64::from(MOST_BOOTS)));
    }
    if home.greatest_moment.0 > LATEST_MOMENT {
        return Some(Form::QuotaExceeded(Quota::Moments, LATEST_MOMENT));
    }
    if last_position(volume) > LAST_POSITION {
        return Some(Form::QuotaExceeded(Quota::Positions, LAST_POSITION));
    }
    None
}

/// Finishes an open group on a disk that runs, mounts the volume of a node, and raises its boot count.
pub(crate) fn open_disk<D: Disk>(disk: D, group: Group, pool: Pool, name: NodeName) -> Booted<D>
    requires settled { (D.state disk).pending ≡ [] }
    requires least { least_disk_size ≤ (D.state disk).size }
    requires most { (D.state disk).size ≤ greatest_disk_size }
    requires frames { 32 ≤ free_frames pool }
    ensures booted { IsBooted D.state name (D.state disk) result }
    ensures goes { DiskAdvances (D.state disk) (disk_booted D.state result) }
    ensures pool { pool_booted result ≡ pool }
    ensures boots { (n : NodeSaid) → IsAwake name (D.state disk) n → BootsTo D.state n result }
{
    match Store::open(disk, group, pool) {
        Ok(store) => mount_store(store, name),
        Err(
            OpenErr {
                down,
                disk,
                group,
                pool,
            },
        ) => Booted::Fell(disk, group, pool, down),
    }
}

// Mounts the volume of a store, and raises its boot count.
fn mount_store<D: Disk>(store: Store<D>, name: NodeName) -> Booted<D>
    requires idle { store.fits ≡ true → IsIdle store }
    requires least { least_disk_size ≤ store.disk.size }
    requires most { store.disk.size ≤ greatest_disk_size }
    requires frames { 32 ≤ free_frames store.pool }
    ensures booted { IsBooted D.state name store.disk result }
    ensures goes { DiskAdvances store.disk (disk_booted D.state result) }
    ensures pool { pool_booted result ≡ store.pool }
    ensures boots { (n : NodeSaid) → IsOpened name store n → BootsTo D.state n result }
{
    sound_volumes_are_valid();
    match Volume::mount(store, name) {
        Ok(volume) => raise_boot(volume),
        Err(
            MountErr::Condition {
                number,
                block,
                store,
            },
        ) => {
            let (disk, group, pool) = store.into_parts();
            Booted::Refused(
                disk,
                group,
                pool,
                Form::NoVolume(name, u32::from(number), block),
            )
        }
        Err(MountErr::Down { down, store }) => {
            let (disk, group, pool) = store.into_parts();
            Booted::Fell(disk, group, pool, down)
        }
    }
}

// Raises the boot count of a volume, unless its node is not to be booted.
fn raise_boot<D: Disk>(mut volume: Volume<D>) -> Booted<D>
    requires idle { IsIdle volume.store }
    requires least { least_disk_size ≤ volume.store.disk.size }
    requires most { volume.store.disk.size ≤ greatest_disk_size }
    requires frames { 32 ≤ free_frames volume.store.pool }
    requires sound { IsSound volume.catalog.home.node volume.store.disk.size volume.catalog }
    requires holds { Holds volume }
    ensures booted { IsBooted D.state volume.catalog.home.node volume.store.disk result }
    ensures goes { DiskAdvances volume.store.disk (disk_booted D.state result) }
    ensures pool { pool_booted result ≡ volume.store.pool }
    ensures boots { (n : NodeSaid) → IsMounted volume n → BootsTo D.state n result }
{
    if let Some(form) = refusal(&volume) {
        let (disk, group, pool) = volume.into_store().into_parts();
        return Booted::Refused(disk, group, pool, form);
    }
    let mut home = *volume.home();
    home.boot += 1;
    the_laws();
    match write_home(&mut volume, &home) {
        Ok(()) => Booted::Up(volume),
        Err(down) => {
            let (disk, group, pool) = volume.into_store().into_parts();
            Booted::Fell(disk, group, pool, down)
        }
    }
}
