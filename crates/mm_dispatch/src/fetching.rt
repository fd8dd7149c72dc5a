ghost use Rattle.std.specs.Prelude.{◌≡◌, ◌≤◌, ◌%◌, true, false, Some, None, IfOk, OnOk, OnErr, length, take, drop};
ghost use Rattle.mm_types.specs.{page_of, page_size};
ghost use Rattle.mm_world.specs.{same_key, private_key, written};
ghost use Rattle.mm_store.specs.{IsBegun, eased, place_at, touch, copying, IsReady};
ghost use Rattle.mm_move_rules.specs.{changed};
ghost use Rattle.mm_store.specs.Reports.{Ends};
ghost use Rattle.mm_object_tables.specs.{key_bytes};
ghost use Rattle.mm_dispatch.specs.{LieInPage, CanReach, MayCopyOnWrite, HasOwn, OwnsPage, Touched, Copied};

use mm_object_tables::{CommittedRow, Tables};
use mm_store::PageStore;
use mm_types::{ByteBuf, Key, PAGE_SIZE, PageFault, Pid, Place, Vpn};

/// The page of an address, as a place of a process.
#[inline(always)]
pub(crate) fn place_of(pid: Pid, addr: u32) -> Place
    ensures { result ≡ place_at pid (page_of addr) }
{
    Place {
        pid,
        vpn: Vpn(addr / PAGE_SIZE),
    }
}

/// The key of the bytes that the page of an address has of its own.
fn own_key_of(pid: Pid, addr: u32) -> Key
    ensures { result ≡ private_key pid.0 (page_of addr) }
{
    Key::Private(pid, Vpn(addr / PAGE_SIZE))
}

/// Where in its page an address lies.
fn offset_of(addr: u32) -> u16
    ensures { result ≡ addr % page_size }
{
    (addr % PAGE_SIZE) as u16
}

/// Reads bytes of a key from an address on, at its page.
#[inline(always)]
pub(crate) fn fetch<G: PageStore>(
    t: &Tables,
    g: &mut G,
    pid: Pid,
    addr: u32,
    key: Key,
    out: &mut [u8],
) -> Result<(), PageFault>
    requires can { CanReach G.PageStore t.now (place_at pid (page_of addr)) key (touch key) g.old }
    requires begun { IsBegun (G.store g.old).report }
    requires lie { LieInPage addr (length out.old) }
    ensures length { length out.new ≡ length out.old }
    ensures bytes { OnOk result (out.new ≡
        take (length out.old) (drop (addr % page_size) (key_bytes (G.contents g.old) key))) }
    ensures ends { Ends (touch key) (G.store g.new).report result }
    ensures contents { G.contents g.new ≡ G.contents g.old }
    ensures touched { Touched G.PageStore pid addr key false result t.now g.old g.new }
{
    g.read(place_of(pid, addr), key, offset_of(addr), out)
}

/// Reads 1 to 64 bytes of a key from an address on, at its page.
#[inline(always)]
pub(crate) fn read_bytes<G: PageStore>(
    t: &Tables,
    g: &mut G,
    pid: Pid,
    addr: u32,
    key: Key,
    len: u32,
) -> Result<ByteBuf, PageFault>
    requires can { CanReach G.PageStore t.now (place_at pid (page_of addr)) key (touch key) g.old }
    requires begun { IsBegun (G.store g.old).report }
    requires some { 1 ≤ len }
    requires lie { LieInPage addr len }
    ensures bytes { IfOk result (λ b.
        b ≡ take len (drop (addr % page_size) (key_bytes (G.contents g.old) key))) }
    ensures ends { Ends (touch key) (G.store g.new).report result }
    ensures contents { G.contents g.new ≡ G.contents g.old }
    ensures touched { Touched G.PageStore pid addr key false result t.now g.old g.new }
{
    let mut room = [0; 64];
    let out = &mut room[..len as usize];
    fetch(t, g, pid, addr, key, out)?;
    match ByteBuf::from_slice(out) {
        Some(bytes) => Ok(bytes),
        None => unreachable!(),
    }
}

/// Writes bytes of a key from an address on, at its page.
#[inline(always)]
pub(crate) fn put<G: PageStore>(
    t: &Tables,
    g: &mut G,
    pid: Pid,
    addr: u32,
    key: Key,
    bytes: &[u8],
) -> Result<(), PageFault>
    requires can { CanReach G.PageStore t.now (place_at pid (page_of addr)) key (touch key) g.old }
    requires lie { LieInPage addr (length bytes.now) }
    ensures written { OnOk result (G.contents g.new ≡ changed same_key (G.contents g.old) key
        (Some (written (key_bytes (G.contents g.old) key) (addr % page_size) bytes.now))) }
    ensures kept { OnErr result (G.contents g.new ≡ G.contents g.old) }
    ensures ends { IsBegun (G.store g.old).report → Ends (touch key) (G.store g.new).report result }
    ensures eased { IsReady (G.store g.old) (place_at pid (page_of addr)) (touch key) →
        (G.store g.new).report ≡ eased (G.store g.old).report (G.store g.new).report }
    ensures touched { Touched G.PageStore pid addr key true result t.now g.old g.new }
{
    g.write(place_of(pid, addr), key, offset_of(addr), bytes)
}

/// Gives the page of an address, which a write copies, a copy of its own, in tables and store.
fn copy<G: PageStore>(
    t: &mut Tables,
    g: &mut G,
    pid: Pid,
    addr: u32,
    row: CommittedRow,
) -> Result<(), PageFault>
    requires can { MayCopyOnWrite G.PageStore t.old pid addr row g.old }
    ensures bytes { OnOk result (G.contents g.new ≡
        changed same_key (G.contents g.old) (private_key pid.0 (page_of addr))
        (G.contents g.old row.key)) }
    ensures row { OnOk result (OwnsPage t.old pid addr t.new) }
    ensures kept { OnErr result ((t.new ≡ t.old) × (G.contents g.new ≡ G.contents g.old)) }
    ensures own { OnOk result (HasOwn G.PageStore t.new pid addr g.new) }
    ensures form { (G.store g.new).kind ≡ (G.store g.old).kind }
    ensures ends { Ends (copying row.key (place_at pid (page_of addr))) (G.store g.new).report
        result }
    ensures copied { Copied G.PageStore pid addr row.key result t.new g.old g.new }
{
    match g.copy(place_of(pid, addr), row.key, own_key_of(pid, addr)) {
        Ok(()) => {
            t.copy_page(pid, addr / PAGE_SIZE);
            Ok(())
        }
        Err(fault) => Err(fault),
    }
}

/// Writes bytes from an address on to a copy of its page, which is the page's own from then on.
#[tactic(auto, using(crate::proofs::Readiness::may_go_on))]
pub(crate) fn put_copy<G: PageStore>(
    t: &mut Tables,
    g: &mut G,
    pid: Pid,
    addr: u32,
    row: CommittedRow,
    bytes: &[u8],
) -> Result<(), PageFault>
    requires can { MayCopyOnWrite G.PageStore t.old pid addr row g.old }
    requires lie { LieInPage addr (length bytes.now) }
    ensures written { OnOk result (G.contents g.new ≡
        changed same_key
        (changed same_key (G.contents g.old) (private_key pid.0 (page_of addr))
        (G.contents g.old row.key)) (private_key pid.0 (page_of addr))
        (Some (written (key_bytes (G.contents g.old) row.key) (addr % page_size) bytes.now))) }
    ensures row { OnOk result (OwnsPage t.old pid addr t.new) }
    ensures kept { OnErr result ((t.new ≡ t.old) × (G.contents g.new ≡ G.contents g.old)) }
    ensures ends { Ends (copying row.key (place_at pid (page_of addr))) (G.store g.new).report
        result }
    ensures copied { Copied G.PageStore pid addr row.key result t.new g.old g.new }
{
    copy(t, g, pid, addr, row)?;
    match put(t, g, pid, addr, own_key_of(pid, addr), bytes) {
        Ok(()) => Ok(()),
        // The copy is at hand.
        Err(_) => unreachable!(),
    }
}
