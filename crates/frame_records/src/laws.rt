//! Laws of files, as crates above see them, each the contract of a function that does nothing.

ghost use Rattle.std.specs.Prelude.{◌≡◌, ◌≤◌, ◌<◌, ◌^◌, ◌⊎◌, ℕ, Bool, List, length, Option, IfSome};
ghost use Rattle.pcap_frames.specs.{FrameValue, frame_count_limit};
ghost use Rattle.pcap_frames.specs.declared.fault.CaptureFault.{CaptureFault};
ghost use Rattle.frame_records.specs.CaptureFile.{FileGives, IsRefusedFile};

use pcapng_frames::any_captures_are_decided;

/// Each file either gives one list of frames, with one cut or none, or is refused for its first fault, and never both.
/// Whether the front of a cut capture is asked for decides only which of the two: where a file gives frames either way, they
/// are the same, at most 16,777,216, and so is the cut, whose offset is a number of 64 bits.
pub fn files_are_read_or_refused()
    ensures either { (front : Bool) (file : List ℕ)
        → ((frames : List FrameValue) × (cut : Option ℕ) × FileGives front file frames cut)
        ⊎ ((fault : CaptureFault) × IsRefusedFile front file fault) }
    ensures never_both { (front : Bool) (file : List ℕ) (frames : List FrameValue) (cut : Option ℕ) (fault : CaptureFault)
        → FileGives front file frames cut → IsRefusedFile front file fault → ⊥ }
    ensures one_list { (front other : Bool) (file : List ℕ) (frames others : List FrameValue) (cut other_cut : Option ℕ)
        → FileGives front file frames cut → FileGives other file others other_cut → others ≡ frames }
    ensures one_cut { (front other : Bool) (file : List ℕ) (frames others : List FrameValue) (cut other_cut : Option ℕ)
        → FileGives front file frames cut → FileGives other file others other_cut → other_cut ≡ cut }
    ensures one_fault { (front other : Bool) (file : List ℕ) (fault other_fault : CaptureFault) → IsRefusedFile front file fault
        → IsRefusedFile other file other_fault → other_fault ≡ fault }
    ensures limited { (front : Bool) (file : List ℕ) (frames : List FrameValue) (cut : Option ℕ) → FileGives front file frames cut
        → (length frames ≤ frame_count_limit) × IfSome cut (λ place. place < 2 ^ 64) }
{
    any_captures_are_decided();
}
