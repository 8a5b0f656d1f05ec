// The duty that comes with a stopped board.
ghost use Rattle.std.specs.Prelude.{◌≡◌, true, false};

// Stands for a board that was stopped and has to go on: resuming it takes the slip back. A slip cannot be copied, made by
// others or let go. Letting one go calls `drop`, which asks for a mark that no code sets; the mark stays since the check refuses a
// contract that no call could meet.
pub struct PauseSlip {
    resumed: bool,
}

impl PauseSlip {
    pub(crate) fn new() -> PauseSlip
        ensures { result.resumed ≡ false }
    {
        PauseSlip { resumed: false }
    }

    pub(crate) fn spend(self) {
        let PauseSlip { resumed: _ } = self;
    }
}

impl Drop for PauseSlip {
    // No slip that is handed out meets this, so a program that mislays one is not proved.
    fn drop(self)
        requires { self.resumed ≡ true }
    {
        let PauseSlip { resumed: _ } = self;
    }
}
