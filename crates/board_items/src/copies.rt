//! Equal copies of items, of requests and of what was answered. Their one error is want of memory.
ghost use Rattle.std.specs.Prelude.{◌≡◌, IfOk};

use crate::history::{Act, Call, Entry};
use crate::items::{Item, Padstack};
use crate::requests::{Add, Clients, Layers, Request};
use row_lists::Copied;
use seg_geometry::Points;
use std::alloc::{AllocError, Global};

impl Copied for Add {
    fn copied(&self) -> Result<Add, AllocError> {
        match self {
            Add::Wire {
                net,
                layer,
                width,
                points,
            } => Ok(Add::Wire {
                net: *net,
                layer: *layer,
                width: *width,
                points: points.copied()?,
            }),
            Add::Via { net, padstack, at } => Ok(Add::Via {
                net: *net,
                padstack: *padstack,
                at: *at,
            }),
        }
    }
}

// A boundary of equal lists.
fn copied_fence(layers: &Layers, area: &Points, clients: &Clients) -> Result<Request, AllocError>
    ensures { IfOk result (λ request. request ≡ Request.Fence layers.now area.now clients.now) }
{
    Ok(Request::Fence {
        layers: layers.copied()?,
        area: area.copied()?,
        clients: clients.copied()?,
    })
}

impl Copied for Request {
    fn copied(&self) -> Result<Request, AllocError> {
        match self {
            Request::Edit { deletes, adds } => Ok(Request::Edit {
                deletes: deletes.copied()?,
                adds: adds.copied()?,
            }),
            Request::Reserve { id } => Ok(Request::Reserve { id: *id }),
            Request::Release { id } => Ok(Request::Release { id: *id }),
            Request::Fence {
                layers,
                area,
                clients,
            } => copied_fence(layers, area, clients),
            Request::Unfence { fence } => Ok(Request::Unfence { fence: *fence }),
            Request::Entitle { fence, client } => Ok(Request::Entitle {
                fence: *fence,
                client: *client,
            }),
            Request::Rule { class, clearance } => Ok(Request::Rule {
                class: *class,
                clearance: *clearance,
            }),
        }
    }
}

impl Copied for Item {
    fn copied(&self) -> Result<Item, AllocError> {
        match self {
            Item::Wire {
                net,
                layer,
                width,
                points,
                fix,
            } => Ok(Item::Wire {
                net: *net,
                layer: *layer,
                width: *width,
                points: points.copied()?,
                fix: *fix,
            }),
            Item::Via {
                net,
                padstack,
                at,
                fix,
            } => Ok(Item::Via {
                net: *net,
                padstack: *padstack,
                at: *at,
                fix: *fix,
            }),
            Item::Pad { net, shapes } => Ok(Item::Pad {
                net: *net,
                shapes: shapes.copied()?,
            }),
            Item::Keep { kind, shapes } => Ok(Item::Keep {
                kind: *kind,
                shapes: shapes.copied()?,
            }),
        }
    }
}

impl Copied for Padstack {
    fn copied(&self) -> Result<Padstack, AllocError> {
        Ok(Padstack {
            name: self.name.copied()?,
            shapes: self.shapes.copied()?,
        })
    }
}

impl Copied for Act {
    fn copied(&self) -> Result<Act, AllocError> {
        match self {
            Act::Ask { request } => Ok(Act::Ask {
                request: request.copied()?,
            }),
            Act::Leave => Ok(Act::Leave),
        }
    }
}

impl Copied for Entry {
    fn copied(&self) -> Result<Entry, AllocError> {
        Ok(Entry {
            number: self.number,
            client: self.client,
            act: self.act.copied()?,
        })
    }
}

impl Copied for Call {
    fn copied(&self) -> Result<Call, AllocError> {
        Ok(Call {
            client: self.client,
            base: self.base,
            act: self.act.copied()?,
            reply: self.reply,
        })
    }
}

impl Request {
    /// An equal request.
    pub fn copy(&self, _alloc: Global) -> Result<Request, AllocError>
        ensures { IfOk result (λ request. request ≡ self.now) }
    {
        self.copied()
    }
}

impl Item {
    /// An equal item.
    pub fn copy(&self, _alloc: Global) -> Result<Item, AllocError>
        ensures { IfOk result (λ item. item ≡ self.now) }
    {
        self.copied()
    }
}
