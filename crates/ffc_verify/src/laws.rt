//! What holds of the definitions of the top call.
ghost use Rattle.ffc_verify.specs.Laws.{NotEnoughGoesOn};

/// A front of a certificate is not enough exactly where, as a whole certificate, it would be accepted, or refused only because
/// it ends too early.
pub fn not_enough_goes_on()
    ensures { NotEnoughGoesOn }
{}
