//! Laws about the bytes of captures, for the crates that use this one.
ghost use Rattle.std.specs.Prelude.{◌≡◌, ◌≢◌, ◌+◌, ◌≤◌, List, [], ◌∷◌, ℕ, length, drop, map, All, Bool, Ok, Err, false};
ghost use Rattle.napt_capture.specs.declared.{fault.CaptureFault.{CaptureFault, TheVariants.TooLarge}, capture_format.CaptureFormat.CaptureFormat};
ghost use Rattle.napt_capture.specs.{declared.reading.NextRead.TheVariants.{Whole, End}, Contents.RecordModel};
ghost use Rattle.napt_capture.specs.{Capture.{capture_of_bytes, contents_by, records_from, next_in, number_behind, read_whole}, Text.{IsWritable, as_written, text}};

/// Law: the records in some bytes are the next record, followed by the records in the bytes after
/// it. At the end or at a fault there are none.
pub fn records_follow()
    ensures record { (s : CaptureFormat) (number : ℕ) (text : List ℕ) (entry : RecordModel) →
        next_in s number text ≡ Ok (Whole entry) → records_from s number 0 text ≡ record {
          records = entry ∷ (records_from s (number_behind number) 0
              (drop (16 + length entry.bytes) text)).records;
          end = (records_from s (number_behind number) 0 (drop (16 + length entry.bytes) text)).end;
        } }
    ensures end { (s : CaptureFormat) (number : ℕ) (text : List ℕ) (cut : Bool) →
        next_in s number text ≡ Ok (End cut) →
        records_from s number 0 text ≡ record { records = []; end = Ok cut } }
    ensures fault { (s : CaptureFormat) (number : ℕ) (text : List ℕ) (fault : CaptureFault) →
        next_in s number text ≡ Err fault →
        records_from s number 0 text ≡ record { records = []; end = Err fault } }
{}

/// Law: a written capture is read back with the same times and bytes. The original length of each
/// record is the length of its packet, and no record is cut. `read_capture` reads a capture of up
/// to 68,719,476,720 bytes completely, since it can then still ask for the end.
pub fn reads_back()
    ensures captured { (records : List RecordModel) → All IsWritable records →
        capture_of_bytes (text records) ≡ record {
          records = map as_written records;
          end = Ok false;
        } }
    ensures whole { (records : List RecordModel) → All IsWritable records →
        length (text records) ≤ 68719476720
        → read_whole (text records) ≡ Ok (record { records = map as_written records; cut = false }) }
{}

/// Law: no file of at most 68,719,214,576 bytes is `TooLarge`, and no file that is read record by
/// record is `TooLarge`.
pub fn none_too_large()
    ensures whole { (bytes : List ℕ) → length bytes ≤ 68719214576 →
        read_whole bytes ≡ contents_by (capture_of_bytes bytes).records (capture_of_bytes bytes).end }
    ensures never { (bytes : List ℕ) → (capture_of_bytes bytes).end ≢ Err TooLarge }
{}
