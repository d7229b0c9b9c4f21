//! An editor whose changes can be undone and redone.

use crate::faults::UndoFault;
use crate::stepping::step;
use crate::ways::{keep_way_back, way_back, way_back_of_edit};
use circular_buffer::HeapCircularBuffer;
use plan_back::{Back, Editor};
use plan_check::{EditFault, Plan};
use plan_spec::Edit;
use std::alloc::Global;
use std::marker::Model;
use text_spec::{Name, NoMemory};

/// An editor over another one, with the last so many changes to undo. It keeps changes, not plans, each of them the way
/// back from one. Contracts see the undo machine: the depth, the plan now, and the plans to undo and to redo with the
/// names of what changed.
#[derive(Drop)]
pub struct Undo<E: Editor> {
    editor: E,
    past: HeapCircularBuffer<Back>,
    next: HeapCircularBuffer<Back>,
}

impl<E: Editor> Model for Undo<E> {
    ghost use Rattle.plan_undo.specs.History.{History};
    ghost use Rattle.plan_undo.specs.Ways.{AreKept, history_of};

    ghost Value = { History };

    ghost view = { λ u. history_of (E.plan u.editor) u.past u.next };

    ghost invariant = { λ u. AreKept (E.plan u.editor) u.past u.next };
}

impl<E: Editor> Undo<E> {
    ghost use Rattle.std.specs.Prelude.{◌≡◌, ◌≤◌, Err, IfOk, None, OnErr, Some};
    ghost use Rattle.plan_undo.specs.History.{begun, redone, undone};

    /// An editor over this one, with nothing to undo yet, and later at most `depth` changes. Without memory the editor
    /// is dropped.
    pub fn new(alloc: Global, editor: E, depth: usize) -> Result<Undo<E>, NoMemory>
        requires { 1 ≤ depth }
        ensures { IfOk result (λ undo. undo ≡ begun depth (E.plan editor)) }
    {
        let past = HeapCircularBuffer::with_capacity(alloc, depth)?;
        let next = HeapCircularBuffer::with_capacity(alloc, depth)?;
        Ok(Undo { editor, past, next })
    }

    /// Takes the last change back, and answers the name of what it changed. `Err(Nothing)` says that there is none.
    /// After any fault all is as before.
    pub fn undo(&mut self, alloc: Global) -> Result<Name, UndoFault>
        ensures undone { IfOk result (λ name. undone self.old ≡ Some (name, self.new)) }
        ensures nothing { result ≡ Err UndoFault.Nothing → undone self.old ≡ None }
        ensures something { undone self.old ≡ None → result ≡ Err UndoFault.Nothing }
        ensures unchanged { OnErr result (self.new ≡ self.old) }
    {
        step(alloc, &mut self.editor, &mut self.past, &mut self.next)
    }

    /// Makes the last change again that was undone, and answers the name of what it changes. `Err(Nothing)` says that
    /// there is none. After any fault all is as before.
    pub fn redo(&mut self, alloc: Global) -> Result<Name, UndoFault>
        ensures redone { IfOk result (λ name. redone self.old ≡ Some (name, self.new)) }
        ensures nothing { result ≡ Err UndoFault.Nothing → redone self.old ≡ None }
        ensures something { redone self.old ≡ None → result ≡ Err UndoFault.Nothing }
        ensures unchanged { OnErr result (self.new ≡ self.old) }
    {
        step(alloc, &mut self.editor, &mut self.next, &mut self.past)
    }
}

impl<E: Editor> Editor for Undo<E> {
    ghost use Rattle.plan_undo.specs.History.{History, backed, edited};

    ghost State = { History };

    ghost plan = { λ u. u.now };

    ghost state = { λ u. u };

    ghost edited = { edited };

    ghost backed = { backed };

    fn apply_edit(&mut self, alloc: Global, edit: &Edit) -> Result<(), EditFault> {
        let other = way_back_of_edit(alloc, self.editor.plan_now(), edit)?;
        self.editor.apply_edit(alloc, edit)?;
        keep_way_back(&mut self.past, &mut self.next, other);
        Ok(())
    }

    fn apply_back(&mut self, alloc: Global, back: &Back) -> Result<(), EditFault> {
        let other = way_back(alloc, self.editor.plan_now(), back)?;
        self.editor.apply_back(alloc, back)?;
        keep_way_back(&mut self.past, &mut self.next, other);
        Ok(())
    }

    fn plan_now(&self) -> &Plan {
        self.editor.plan_now()
    }
}
