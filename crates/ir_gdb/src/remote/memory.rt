//! Bytes at addresses: the code, private memory, and the objects.

ghost use Rattle.std.specs.Prelude.{◌≡◌, ◌<◌, min};
ghost use Rattle.ir_cut.specs.Positions.{EachRun, cut_of, threads_of};
ghost use Rattle.ir_weave.specs.Standing.{StandsAtCut};
ghost use Rattle.ir_gdb.specs.Conditions.{seen_at};
ghost use Rattle.ir_gdb.specs.Reads.{byte_seen, bytes_there, most_read_bytes};
ghost use Rattle.ir_gdb.specs.Sight.{seen_in};
ghost use Rattle.ir_gdb.specs.Serving.{IsRemoteThere};

use crate::remote::Remote;
use crate::sight::Sight;
use arrayvec::ArrayVec;
use ir_cut::Cut;

/// The most bytes that `m` gives.
pub const MOST_READ: usize = 2000;

impl Remote {
    // What a thread has, where all are at a cut.
    pub(crate) fn sight(&self, cut: &Cut, thread: u32) -> Sight<'_>
        requires there { StandsAtCut self.now.stub.desk.fitted (cut_of cut.now) self.now.state }
        requires thread { thread < threads_of self.now.stub.desk.fitted }
        ensures { EachRun self.now.stub.desk.fitted (λ run. seen_in result ≡ seen_at run self.now.stub.desk.fitted (cut_of cut.now) thread) }
    {
        let image = self.debugger.fitted().image();
        let mach = self.visited(cut, thread).mach();
        Sight::new(image, mach, self.debugger.objects())
    }

    // What the general thread has where all are.
    fn general_sight(&self) -> Sight<'_>
        requires { IsRemoteThere self.now }
        ensures { EachRun self.now.stub.desk.fitted (λ run. seen_in result ≡ seen_at run self.now.stub.desk.fitted (cut_of self.now.stub.desk.at) self.now.stub.general) }
    {
        self.sight(self.debugger.at(), self.general)
    }

    // The byte that the general thread has at an address.
    fn byte(&self, address: u32) -> Option<u8>
        requires { IsRemoteThere self.now }
        ensures { EachRun self.now.stub.desk.fitted (λ run. result ≡ byte_seen run self.now.stub address) }
    {
        self.general_sight().byte_at(address)
    }

    #[tactic(auto, using(crate::proofs::Bytes::bytes_there_of_no_count, crate::proofs::Bytes::bytes_there_step, crate::proofs::Bytes::bytes_end_at_missing, crate::proofs::Seen::no_byte_at_high))]
    // The bytes from an address on, as many as there are, at most this number and `MOST_READ`.
    pub fn bytes_here(&self, address: u32, size: u32) -> ArrayVec<u8, MOST_READ>
        requires { IsRemoteThere self.now }
        ensures { EachRun self.now.stub.desk.fitted (λ run. result.items ≡ bytes_there (byte_seen run self.now.stub) (min size most_read_bytes) address) }
    {
        let mut bytes = ArrayVec::new();
        let count = (size as usize).min(MOST_READ);
        'bytes: for place in 0..count {
            let Some(at) = address.checked_add(place as u32) else {
                break;
            };
            let Some(byte) = self.byte(at) else {
                break;
            };
            bytes.push(byte);
        }
        bytes
    }
}
