ghost use Rattle.move_laws.specs.Quiet.{QuietToken};

/// Behind a token that opens or closes a node at which no role is live, no action comes.
pub fn quiet_token()
    ensures { QuietToken }
{}
