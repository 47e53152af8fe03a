//! The list of threads.

ghost use Rattle.std.specs.Prelude.{◌≡◌, ◌≤◌, ◌<◌, ◌+◌, ◌++◌, OnOk, OnErr, IfOk, vec_len, vec_capacity};
ghost use Rattle.ir_cut.specs.Positions.{threads_of};
ghost use Rattle.ir_packet.specs.Replies.{piece_text};
ghost use Rattle.ir_gdb.specs.Texts.{position_text, thread_list_line, thread_list_text};

use crate::ending::{end_of_thread, put_end};
use crate::remote::Remote;
use ir_packet::{put_number, put_piece, put_text};
use ir_text::Text;
use std::alloc::{AllocError, Global};

// The most bytes of the list.
const MOST_LIST: usize = 2400;

impl Remote {
    // Puts the name and the position of a thread at the end, and at its last position how it ended, as text of its element.
    fn put_place(&self, out: &mut Vec<u8>, thread: u32)
        requires thread { thread < threads_of self.now.stub.desk.fitted }
        requires room { vec_len out.old + 117 ≤ vec_capacity out.old }
        ensures bytes { out.new.items ≡ out.old.items ++ position_text self.now.stub thread }
        ensures len { vec_len out.new ≤ vec_len out.old + 117 }
        ensures capacity { vec_capacity out.new ≡ vec_capacity out.old }
    {
        let mut text = Text::new();
        let position = self.position(thread);
        let last = self.last(thread);
        ir_text::put_number(&mut text, b"\" name=\"thread ", thread as u64);
        ir_text::put_number(&mut text, b"\">at ", position);
        ir_text::put_number(&mut text, b" of ", last);
        put_text(out, text.as_slice());
        if position == last {
            put_end(out, end_of_thread(self.debugger.fitted(), thread));
        }
    }

    // Puts the element of a thread at the end.
    fn put_thread(&self, out: &mut Vec<u8>, thread: u32)
        requires thread { thread < threads_of self.now.stub.desk.fitted }
        requires small { thread < 16 }
        requires room { vec_len out.old + 146 ≤ vec_capacity out.old }
        ensures bytes { out.new.items ≡ out.old.items ++ thread_list_line self.now.stub thread }
        ensures len { vec_len out.new ≤ vec_len out.old + 146 }
        ensures capacity { vec_capacity out.new ≡ vec_capacity out.old }
    {
        put_text(out, b"<thread id=\"");
        put_number(out, thread + 1);
        self.put_place(out, thread);
        put_text(out, b"</thread>");
    }

    // The list of threads.
    #[tactic(auto, using(ir_image::proofs::CallerLemmas::guest_threads_within, crate::proofs::Threads::text_put_start, crate::proofs::Threads::text_put_step, crate::proofs::Threads::append_3_texts))]
    fn thread_list(&self, alloc: Global) -> Result<Vec<u8>, AllocError>
        ensures text { IfOk result (λ list. list.items ≡ thread_list_text self.now.stub) }
        ensures len { IfOk result (λ list. vec_len list ≤ 2400) }
    {
        let mut list = Vec::with_capacity(alloc, MOST_LIST)?;
        put_text(&mut list, b"<?xml version=\"1.0\"?><threads>");
        let count = self.debugger.fitted().image().entries().len();
        'threads: for thread in 0..count as u32 {
            self.put_thread(&mut list, thread);
        }
        put_text(&mut list, b"</threads>");
        Ok(list)
    }

    /// `qXfer:threads:read`: puts a piece of the list of threads at the end, each with its position.
    ///
    /// # Errors
    /// Out of memory.
    pub fn threads(
        &self,
        alloc: Global,
        from: u32,
        most: u32,
        out: &mut Vec<u8>,
    ) -> Result<(), AllocError>
        requires { vec_len out.old + 2401 ≤ vec_capacity out.old }
        ensures ok { OnOk result (out.new.items ≡ out.old.items ++ piece_text (thread_list_text self.now.stub) from most) }
        ensures err { OnErr result (out.new.items ≡ out.old.items) }
        ensures capacity { vec_capacity out.new ≡ vec_capacity out.old }
    {
        let list = self.thread_list(alloc)?;
        put_piece(out, list.as_slice(), from, most);
        Ok(())
    }
}
