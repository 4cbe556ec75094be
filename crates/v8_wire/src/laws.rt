//! Laws of the bytes: functions with empty bodies, whose clauses are the laws.
ghost use Rattle.std.specs.Prelude.{◌≡◌, ℕ, ◌<◌, List, length, take, IsTrue, Ok};
ghost use Rattle.parcel.specs.Checked.{IsChecked};
ghost use Rattle.parcel.specs.Plain.{IsPlain, ports_below};
ghost use Rattle.parcel.specs.declared.parcel.Parcel.{Parcel};
ghost use Rattle.v8_wire.specs.Item.{parcel_at};
ghost use Rattle.v8_wire.specs.Spelling.{spelled};

/// Every spelling reads as its parcel: what `put` wrote of a checked parcel without functions and promises, `take` reads
/// as that parcel, where as many ports came along as its ports' places need.
pub fn spellings_are_read()
    ensures { (parcel : Parcel) (ports : ℕ) → IsChecked parcel → IsPlain parcel → IsTrue (ports_below ports parcel)
        → parcel_at ports (spelled parcel) ≡ Ok parcel }
{}

/// Bytes read as at most one parcel.
pub fn bytes_read_once()
    ensures { (bytes : List ℕ) (ports : ℕ) (a b : Parcel) → parcel_at ports bytes ≡ Ok a → parcel_at ports bytes ≡ Ok b → a ≡ b }
{}
