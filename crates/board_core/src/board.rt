//! The board after some entries.
ghost use Rattle.std.specs.Prelude.{◌≡◌, ◌+◌, ◌<◌, ◌≤◌, ◌^◌, ℕ, List, true, is_ok, IfOk, OnOk, OnErr, IfSome, IfNone, slice_get, Some, length};
ghost use Rattle.row_lists.specs.Limits.{width_limit_nm};
ghost use Rattle.board_items.specs.declared.items.Item.{Item};
ghost use Rattle.board_items.specs.declared.history.Entry.{Entry};
ghost use Rattle.board_rules.specs.declared.design.Parts.{Parts};
ghost use Rattle.board_rules.specs.Rules.{under, IsFitView};
ghost use Rattle.number_slots.specs.Slots.{IsAt, IsThere, IsRisingFrom};
ghost use Rattle.board_items.specs.Formed.{IsFormed, IsFormedAct, IsFormedFence};
ghost use Rattle.board_core.specs.Boards.{first_board, edited, requested, after, board_at, taken_by, IsSameBoard, IsBoardOf, HasFitAct};
ghost use Rattle.board_core.specs.Histories.{is_leave};
ghost use Rattle.board_core.specs.LiveItems.{live_from, AreNumbered};

use crate::clearances::change;
use crate::draws::draw;
use crate::holds::{release, release_all, release_client, reserve};
use crate::live_items::LiveItems;
use crate::made::{loaded, made};
use board_items::{Act, Add, Clients, Entry, Item, ItemId, Layers, Request};
use board_rules::{Design, Rules, RulesView};
use boundaries::Fences;
use number_slots::Slots;
use reservations::Held;
use seg_geometry::Points;
use std::alloc::{AllocError, Global};
use std::marker::Model;

/// The live items in the order of their numbers, the next number, who holds what, the boundaries, the rules that its
/// items keep, and the count of entries.
#[derive(Drop)]
pub struct Board {
    items: Slots<Item>,
    held: Held,
    fences: Fences,
    rules: Rules,
    count: u32,
}

impl Model for Board {
    ghost use Rattle.std.specs.Prelude.{◌+◌, ◌≤◌, length};
    ghost use Rattle.number_slots.specs.Slots.{there};
    ghost use Rattle.board_core.specs.Boards.{Board as Seen};

    ghost Value = { Seen };

    ghost view = { λ b. record { live = there 1 b.items; next_id = length b.items + 1; held = b.held.pairs; fences = b.fences.fences; last = b.fences.last; rules = b.rules; count = b.count } };

    // An entry adds one reservation at most, and one boundary.
    ghost invariant = { λ b. (length b.held.pairs ≤ b.count) × (b.fences.last ≤ b.count) };
}

impl Board {
    /// The board before the first entry: the design's loaded items, numbered from 1, none of them held, no boundary, and
    /// the rules that the design starts with. Its one error is want of memory.
    pub fn new(alloc: Global, design: &Design) -> Result<Board, AllocError>
        ensures first { IfOk result (λ b. IsSameBoard b (first_board design.now.parts)) }
        ensures fits { IfOk result (IsBoardOf design.now.parts) }
    {
        let mut items = Slots::new(alloc);
        let made = loaded(alloc, design.items().as_slice())?;
        items.replace(&[], made)?;
        let rules = design.start_rules().copy()?;
        Ok(Board {
            items,
            held: Held::new(alloc),
            fences: Fences::new(alloc),
            rules,
            count: 0,
        })
    }

    /// How many entries the board has.
    pub fn count(&self) -> u32
        ensures { result ≡ self.now.count }
    {
        self.count
    }

    /// The number that the next item gets. The numbers of live items rise, from 1 on and below it, so that a walk over
    /// all items goes by number, with `item`.
    pub fn next_id(&self) -> u32
        ensures next { result ≡ self.now.next_id }
        ensures within { (n : ℕ) (x : Item) → IsAt self.now.live n x → (0 < n) × (n < result) }
        ensures rising { IsRisingFrom 1 self.now.live }
    {
        self.items.last() + 1
    }

    /// How many items are live.
    pub fn live(&self) -> u32
        ensures { result ≡ length self.now.live }
    {
        self.items.count()
    }

    /// The live item `i`, from 0, in the order of their numbers, and its number; none past the last. It walks over all
    /// numbers before it.
    pub fn at(&self, i: u32) -> Option<(ItemId, &Item)>
        ensures some { IfSome result (λ x. slice_get self.now.live i ≡ Some (x.0.0, x.1.now)) }
        ensures none { IfNone result (length self.now.live ≤ i) }
    {
        let (number, item) = self.items.nth(i)?;
        Some((ItemId(number), item))
    }

    /// The live item of a number.
    pub fn item(&self, id: ItemId) -> Option<&Item>
        ensures some { IfSome result (λ item. IsAt self.now.live id.0 item.now) }
        ensures only { IfSome result (λ item. (x : Item) → IsAt self.now.live id.0 x → x ≡ item.now) }
        ensures none { IfNone result (IsThere self.now.live id.0 → ⊥) }
    {
        self.items.at(id.0)
    }

    /// Who holds what.
    pub fn held(&self) -> &Held
        ensures { result.now.pairs ≡ self.now.held }
    {
        &self.held
    }

    /// The boundaries.
    pub fn fences(&self) -> &Fences
        ensures fences { result.now.fences ≡ self.now.fences }
        ensures last { result.now.last ≡ self.now.last }
    {
        &self.fences
    }

    /// The untyped clearances of the classes, which the live items keep.
    pub fn rules(&self) -> &Rules
        ensures { result.now ≡ self.now.rules }
    {
        &self.rules
    }

    // The rules as they are.
    pub(crate) fn rules_view(&self) -> RulesView<'_>
        ensures rules { under result ≡ self.now.rules }
        ensures fits { (p : Parts) → IsBoardOf p self.now → IsFitView p result }
    {
        RulesView {
            rules: &self.rules,
            change: None,
        }
    }

    // A walk over the live items.
    pub(crate) fn live_items(&self) -> LiveItems<'_>
        ensures all { live_from result 0 ≡ self.now.live }
        ensures numbered { AreNumbered result }
        ensures rising { IsRisingFrom 1 self.now.live }
    {
        let _last = self.items.last();
        LiveItems::OnBoard {
            numbers: self.items.numbers(),
            items: &self.items,
        }
    }

    // Deletes and adds, as one entry. A deleted item is no longer held.
    fn edit(&mut self, deletes: &[u32], adds: &[Add]) -> Result<(), AllocError>
        requires next { self.old.next_id + length adds.now < 2 ^ 32 }
        requires count { self.old.count + 1 < 2 ^ 32 }
        ensures ok { OnOk result (IsSameBoard self.new (edited self.old deletes.now adds.now)) }
        ensures err { OnErr result (IsSameBoard self.new self.old) }
    {
        let made = made(self.items.allocator(), adds)?;
        self.items.replace(deletes, made)?;
        release_all(&mut self.held, deletes);
        self.count += 1;
        Ok(())
    }

    // A reservation, as one entry.
    fn reserve(&mut self, client: u8, id: ItemId) -> Result<(), AllocError>
        requires count { self.old.count + 1 < 2 ^ 32 }
        ensures ok { OnOk result (IsSameBoard self.new (requested self.old client (Request.Reserve id))) }
        ensures err { OnErr result (IsSameBoard self.new self.old) }
    {
        reserve(&self.items, &mut self.held, id, client)?;
        self.count += 1;
        Ok(())
    }

    // The end of a reservation, as one entry.
    fn release(&mut self, client: u8, id: ItemId)
        requires count { self.old.count + 1 < 2 ^ 32 }
        ensures { IsSameBoard self.new (requested self.old client (Request.Release id)) }
    {
        release(&mut self.held, id, client);
        self.count += 1;
    }

    // A boundary, as one entry.
    fn draw(
        &mut self,
        owner: u8,
        layers: &Layers,
        area: &Points,
        clients: &Clients,
    ) -> Result<(), AllocError>
        requires count { self.old.count + 1 < 2 ^ 32 }
        requires formed { IsFormedFence layers.now area.now clients.now }
        ensures ok { OnOk result (IsSameBoard self.new (requested self.old owner (Request.Fence layers.now area.now clients.now))) }
        ensures err { OnErr result (IsSameBoard self.new self.old) }
    {
        draw(&mut self.fences, owner, layers, area, clients)?;
        self.count += 1;
        Ok(())
    }

    // The end of a boundary, as one entry.
    fn unfence(&mut self, client: u8, fence: u32)
        requires count { self.old.count + 1 < 2 ^ 32 }
        ensures { IsSameBoard self.new (requested self.old client (Request.Unfence fence)) }
    {
        self.fences.unfence(fence);
        self.count += 1;
    }

    // One more entitled client, as one entry.
    fn entitle(&mut self, client: u8, fence: u32, other: u8)
        requires count { self.old.count + 1 < 2 ^ 32 }
        ensures { IsSameBoard self.new (requested self.old client (Request.Entitle fence other)) }
    {
        self.fences.entitle(fence, other);
        self.count += 1;
    }

    // A change of a class's clearance, as one entry.
    fn rule(&mut self, client: u8, class: u32, clearance: u32)
        requires count { self.old.count + 1 < 2 ^ 32 }
        requires fits { clearance ≤ width_limit_nm }
        ensures { IsSameBoard self.new (requested self.old client (Request.Rule class clearance)) }
    {
        change(&mut self.rules, class, clearance);
        self.count += 1;
    }

    // The end of a client's reservations, as one entry. Its boundaries stay.
    fn leave(&mut self, client: u8)
        requires count { self.old.count + 1 < 2 ^ 32 }
        ensures { IsSameBoard self.new (after self.old client Act.Leave) }
    {
        release_client(&mut self.held, client);
        self.count += 1;
    }

    // One more request of a client.
    fn ask(&mut self, client: u8, request: &Request) -> Result<(), AllocError>
        requires next { self.old.next_id + taken_by (Act.Ask request.now) < 2 ^ 32 }
        requires count { self.old.count + 1 < 2 ^ 32 }
        requires formed { IsFormed request.now }
        ensures ok { OnOk result (IsSameBoard self.new (requested self.old client request.now)) }
        ensures err { OnErr result (IsSameBoard self.new self.old) }
    {
        match request {
            Request::Edit { deletes, adds } => {
                return self.edit(deletes.as_slice(), adds.as_slice());
            }
            Request::Reserve { id } => return self.reserve(client, *id),
            Request::Fence {
                layers,
                area,
                clients,
            } => return self.draw(client, layers, area, clients),
            Request::Release { id } => self.release(client, *id),
            Request::Unfence { fence } => self.unfence(client, *fence),
            Request::Entitle {
                fence,
                client: other,
            } => self.entitle(client, *fence, *other),
            Request::Rule { class, clearance } => self.rule(client, *class, *clearance),
        }
        Ok(())
    }

    // One more entry.
    fn take(&mut self, entry: &Entry) -> Result<(), AllocError>
        requires next { self.old.next_id + taken_by entry.now.act < 2 ^ 32 }
        requires count { self.old.count + 1 < 2 ^ 32 }
        requires formed { IsFormedAct entry.now.act }
        ensures ok { OnOk result (IsSameBoard self.new (after self.old entry.now.client entry.now.act)) }
        ensures err { OnErr result (IsSameBoard self.new self.old) }
        ensures leave { is_leave entry.now.act ≡ true → is_ok result ≡ true }
    {
        match &entry.act {
            Act::Ask { request } => self.ask(entry.client, request),
            Act::Leave => {
                self.leave(entry.client);
                Ok(())
            }
        }
    }

    /// Takes one more entry. An edit's deletes go, whatever they are, and are held no longer, and then its adds come,
    /// under the next numbers. A client that leaves holds nothing any more, and its boundaries stay. What isn't there
    /// isn't changed. After an `Err`, for want of memory, the board is as before; a leave and a change of a clearance
    /// take none.
    pub fn apply(&mut self, entry: &Entry) -> Result<(), AllocError>
        requires next { self.old.next_id + taken_by entry.now.act < 2 ^ 32 }
        requires count { self.old.count + 1 < 2 ^ 32 }
        requires formed { IsFormedAct entry.now.act }
        ensures ok { OnOk result (IsSameBoard self.new (after self.old entry.now.client entry.now.act)) }
        // From the board after k entries of a journal to that after k + 1.
        ensures step { OnOk result ((p : Parts) (journal : List Entry) (k : ℕ) → slice_get journal k ≡ Some entry.now
            → IsSameBoard self.old (board_at p journal k) → IsSameBoard self.new (board_at p journal (k + 1))) }
        ensures fits { OnOk result ((p : Parts) → IsBoardOf p self.old → HasFitAct p entry.now.act → IsBoardOf p self.new) }
        ensures err { OnErr result (IsSameBoard self.new self.old) }
        ensures leave { is_leave entry.now.act ≡ true → is_ok result ≡ true }
    {
        self.take(entry)
    }
}
