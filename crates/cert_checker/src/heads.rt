//! Taking the lines at the head of a report.

ghost use Rattle.std.specs.Prelude.{◌≡◌, IsTrue};
ghost use Rattle.cert_checker.specs.declared.faults.CertKind.TheVariants.{Text};
ghost use Rattle.cert_checker.specs.Checking.{Outcome};
ghost use Rattle.cert_checker.specs.Texts.{TitleHolds, TitleFails, behind_presentation, ItemsHold, ItemsFail};

use crate::CertKind;
use crate::checker::Checker;
use crate::faults::LineFault;
use crate::phase::Phase;
use crate::version::Version;
use report_lines::{is_title, is_trimmed_title, read_items_line};

impl Checker {
    /// Takes the bytes of the first line, which tells the version.
    pub fn take_title(self, bytes: &[u8]) -> Result<Checker, LineFault>
        ensures { Outcome (TitleHolds self bytes.now) (TitleFails bytes.now) result }
    {
        if is_title(bytes) {
            return Ok(self.begun(Version::Whole, Phase::Presentation));
        }
        if is_trimmed_title(bytes) {
            return Ok(self.begun(Version::Trimmed { items: 0 }, Phase::Presentation));
        }
        Err(LineFault::Fails(CertKind::Text))
    }

    /// Goes on behind the presentation, where it is the right one.
    pub fn take_presentation(self, is_right: bool) -> Result<Checker, LineFault>
        ensures { Outcome (λ taken. IsTrue is_right × (taken ≡ record self {
          phase = behind_presentation self.version;
        }))
            (λ k. (IsTrue is_right → ⊥) × (k ≡ Text)) result }
    {
        if !is_right {
            return Err(LineFault::Fails(CertKind::Text));
        }
        let phase = match self.version {
            Version::Whole => Phase::Entries,
            Version::Trimmed { .. } => Phase::Items,
        };
        let version = self.version;
        Ok(self.begun(version, phase))
    }

    /// Takes the bytes of the third line of a trimmed report, which tells how many items the history has.
    pub fn take_items(self, bytes: &[u8]) -> Result<Checker, LineFault>
        ensures { Outcome (ItemsHold self bytes.now) (ItemsFail bytes.now) result }
    {
        match read_items_line(bytes) {
            Some(items) => Ok(self.begun(Version::Trimmed { items }, Phase::Entries)),
            None => Err(LineFault::Fails(CertKind::Text)),
        }
    }

    fn begun(self, version: Version, phase: Phase) -> Checker
        ensures { result ≡ record self { version = version; phase = phase } }
    {
        let mut checker = self;
        checker.version = version;
        checker.phase = phase;
        checker
    }
}
