//! Laws of the message bytes: functions with empty bodies, whose clauses are the laws.
#![tactic(auto)]

ghost use Rattle.std.specs.Prelude.{ℕ, List, ◌<◌, length, take, IsTrue};
ghost use Rattle.parcel.specs.Checked.{IsChecked};
ghost use Rattle.parcel.specs.Plain.{IsPlain, ports_below};
ghost use Rattle.parcel.specs.declared.parcel.Parcel.{Parcel};
ghost use Rattle.v8_wire.specs.Spelling.{spelled};
ghost use Rattle.v8_wire.specs.Item.{parcel_at};
ghost use Rattle.wire_laws.specs.Answers.{IsOneOf};
ghost use Rattle.wire_laws.specs.Fronts.{front_read, ReadsAs};

/// A spelling that is cut off reads as nothing: where as many ports came along as the ports' places need, each proper
/// front of the spelling of a checked parcel without functions and promises is refused, and its end is the place of
/// the fault. One front alone is a spelling itself: what stands before the tag of a view at the root spells the view's
/// buffer.
pub fn fronts_are_cut()
    ensures { (parcel : Parcel) (ports n : ℕ) → IsChecked parcel → IsPlain parcel → IsTrue (ports_below ports parcel)
        → n < length (spelled parcel) → ReadsAs ports (take n (spelled parcel)) (front_read parcel n) }
{}

/// Bytes that read as a parcel have no fault, and others have one.
pub fn bytes_read_or_are_at_fault()
    ensures { (bytes : List ℕ) (ports : ℕ) → IsOneOf (parcel_at ports bytes) }
{}
