//! Drivers, and the lines that they answer.
ghost use Rattle.std.specs.Prelude.{◌≡◌, [], IsErrOf, OnErr, OnOk};
ghost use Rattle.script_exchanges.specs.declared.line.Drive.{Drive};
ghost use Rattle.script_exchanges.specs.declared.line.DriveLine.TheVariants as drive_line;
ghost use Rattle.script_exchanges.specs.DriveGrammar.{IsDriveLine, SpellsDrive, SpellsNoDrive};
ghost use Rattle.script_exchanges.specs.Exchanges.{Exchanges};
ghost use Rattle.script_model.specs.ScriptGrammar.{SpellsLine};
ghost use Rattle.script_drive.specs.Drivers.{IsAtWork, SpellsSomeDrive, StandsStill, Tells, TellsEach};

use board_model::{Name, Names};
use script_exchanges::{Drive, DriveLine};
use script_feed::parse_drive;
use script_loop::LineError;
use script_model::ScriptLine;
use std::alloc::{AllocError, Global};

/// What answers the lines of a script whose parties can be driven, a function a kind of line.
///
/// Contracts see what drives the parties, which exchanges of lines and what is told of them are lawful, and for which
/// exchanges so far the driver stands. The driver is at work where it stands for exchanges that are lawful, and fewer than
/// 2^32. For all exchanges that it stands for, what a function adds to what is told is lawful, and the driver stands for
/// the exchanges with this one.
pub trait Drives {
    ghost drive: { Drive };

    ghost lawful: { Exchanges → Type 0 };

    ghost stands: { Self → Exchanges → Type 0 };

    /// What drives the parties.
    fn kind(&self) -> Drive
        ensures { result ≡ drive };

    /// Answers a line of a plain script, which stands in `line`.
    ///
    /// # Errors
    /// `AllocError` where memory is refused.
    fn script(
        &mut self,
        parsed: ScriptLine,
        line: &[u8],
        told: &mut Vec<u8>,
    ) -> Result<(), AllocError>
        requires work { IsAtWork lawful stands self.old }
        requires spelled { SpellsLine line.now parsed }
        requires empty { told.old.items ≡ [] }
        ensures { OnOk result (Tells lawful stands self.old self.new (drive_line.Script parsed)
            told.new.items) };

    /// Answers the line that starts to drive a party.
    ///
    /// # Errors
    /// `AllocError` where memory is refused.
    fn start(&mut self, party: Name, things: Names, told: &mut Vec<u8>) -> Result<(), AllocError>
        requires work { IsAtWork lawful stands self.old }
        requires line { IsDriveLine drive (drive_line.Start party things) }
        requires empty { told.old.items ≡ [] }
        ensures { OnOk result (Tells lawful stands self.old self.new
            (drive_line.Start party things) told.new.items) };

    /// Answers the line at which a driven party's next line is given.
    ///
    /// # Errors
    /// `AllocError` where memory is refused.
    fn turn(&mut self, party: Name, told: &mut Vec<u8>) -> Result<(), AllocError>
        requires work { IsAtWork lawful stands self.old }
        requires line { IsDriveLine drive (drive_line.Turn party) }
        requires empty { told.old.items ≡ [] }
        ensures { OnOk result (Tells lawful stands self.old self.new (drive_line.Turn party)
            told.new.items) };
}

// Answers a line of the grammar, which stands in `line`.
fn exchange<D: Drives>(
    driver: &mut D,
    parsed: DriveLine,
    line: &[u8],
    told: &mut Vec<u8>,
) -> Result<(), AllocError>
    requires work { IsAtWork D.lawful D.stands driver.old }
    requires spelled { SpellsDrive D.drive line.now parsed }
    requires empty { told.old.items ≡ [] }
    ensures { OnOk result (Tells D.lawful D.stands driver.old driver.new parsed told.new.items) }
{
    match parsed {
        DriveLine::Script(parsed) => driver.script(parsed, line, told),
        DriveLine::Start { party, things } => driver.start(party, things, told),
        DriveLine::Turn { party } => driver.turn(party, told),
    }
}

/// Answers a line: `told` then has all that is written of it, and nothing else.
///
/// # Errors
/// `Bad` where the line is outside the grammar; `OutOfMemory`.
pub fn answer_line<D: Drives>(
    alloc: Global,
    driver: &mut D,
    line: &[u8],
    told: &mut Vec<u8>,
) -> Result<(), LineError>
    requires { IsAtWork D.lawful D.stands driver.old }

    // For all exchanges that the driver stands for, what is told is lawful, and it stands for the exchanges with this one.
    ensures ok { OnOk result
        (TellsEach D.drive D.lawful D.stands driver.old driver.new line.now told.new.items) }

    // A line outside the grammar is refused, no other one is, and nothing changes.
    ensures bad { IsErrOf result LineError.Bad → SpellsNoDrive D.drive line.now }
    ensures same { IsErrOf result LineError.Bad → StandsStill D.stands driver.old driver.new }

    // Memory is wanted for a line of the grammar alone.
    ensures memory { IsErrOf result LineError.OutOfMemory → SpellsSomeDrive D.drive line.now }

    ensures err { OnErr result (told.new.items ≡ []) }
{
    told.clear();
    match parse_drive(alloc, driver.kind(), line) {
        Ok(Some(parsed)) => match exchange(driver, parsed, line, told) {
            Ok(()) => Ok(()),
            Err(_) => {
                told.clear();
                Err(LineError::OutOfMemory)
            }
        },
        Ok(None) => Err(LineError::Bad),
        Err(_) => Err(LineError::OutOfMemory),
    }
}
