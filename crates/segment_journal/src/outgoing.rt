//! The buffers of the next put, made before it.

ghost use Rattle.std.specs.Prelude.{◌≡◌, ◌≤◌, max, unwrap_or, Some, None, IsSomeAnd, OnOk, OnErr, length};
ghost use Rattle.segment_journal.specs.File.{framed};

use crate::format::CLOSED;
use log_base::{Bytes, Memory, put_bytes, put_u8, put_u32};
use std::alloc::{AllocError, Global};
use std::marker::Model;
use std::mem;

/// Room for one payload: for what is written of it, and for the copy that stays in memory.
#[derive(Debug, Drop)]
pub struct Outgoing {
    alloc: Global,
    room: Option<u32>,
    frame: Vec<u8>,
    copy: Vec<u8>,
}

impl Model for Outgoing {
    ghost use Rattle.segment_journal.specs.Framing.{Framing, HasBuffers};
    ghost use Rattle.std.specs.Prelude.{vec_capacity};

    ghost Value = { Framing };

    ghost view = { λ s. record { room = s.room; frame = s.frame.items } };

    ghost invariant = { λ s. HasBuffers s.room s.frame.items (vec_capacity s.frame) s.copy.items (vec_capacity s.copy) };
}

impl Outgoing {
    /// Without room yet.
    pub fn new(alloc: Global) -> Outgoing
        ensures { result.room ≡ None }
    {
        Outgoing {
            alloc,
            room: None,
            frame: Vec::new(alloc),
            copy: Vec::new(alloc),
        }
    }

    /// For a payload of how many bytes there is room.
    pub fn room(&self) -> Option<u32>
        ensures { result ≡ self.now.room }
    {
        self.room
    }

    /// Makes room for a payload of so many bytes, beside the room that there was.
    pub fn ready(&mut self, bytes: u32) -> Result<(), Memory>
        ensures ok { OnOk result (self.new.room ≡ Some (max (unwrap_or self.old.room 0) bytes)) }
        ensures err { OnErr result (self.new.room ≡ self.old.room) }
    {
        let most = self.room.unwrap_or(0).max(bytes);
        self.frame.clear();
        self.copy.clear();
        self.frame.reserve(most as usize + 5)?;
        self.copy.reserve(most as usize)?;
        self.room = Some(most);
        Ok(())
    }

    /// Frames a payload, and gives the copy of it. The room is used up.
    pub fn take_in(&mut self, payload: &[u8]) -> Bytes
        requires room { IsSomeAnd self.old.room (λ bytes. length payload.now ≤ bytes) }
        requires size { length payload.now ≤ 131072 }
        ensures copy { result ≡ payload.now }
        ensures frame { self.new.frame ≡ framed payload.now }
        ensures room { self.new.room ≡ None }
    {
        self.room = None;
        put_u32(payload.len() as u32, &mut self.frame);
        put_bytes(payload, &mut self.frame);
        put_u8(CLOSED, &mut self.frame);
        let mut copy = mem::replace(&mut self.copy, Vec::new(self.alloc));
        put_bytes(payload, &mut copy);
        Bytes::of(copy)
    }

    /// What is written of the payload.
    pub fn frame(&self) -> &[u8]
        ensures { result.now ≡ self.now.frame }
    {
        &self.frame
    }
}
