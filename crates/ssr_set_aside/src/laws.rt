//! What holds of reaches, whatever the code: each function here does nothing, and what it ensures is a law.
ghost use Rattle.ssr_set_aside.specs.Beside.{TouchesAhead, TouchesBehind};

/// A match begins and ends with tokens. So it touches the reach of a part that belongs to the token behind it if it holds a byte
/// of the part or begins with that token, and the reach of one that belongs to the token in front if it holds a byte of the part
/// or ends with that token.
pub fn beside()
    ensures ahead { TouchesAhead }
    ensures behind { TouchesBehind }
{}
