// The coded terms of document 01 as enums: policy, control, licence class, sideband, kind of emission and
// direction. A definition gives document 01's number for each case; a case is read from its number by a match, which no derive gives. It
// uses nothing.
#![tactic(auto)]

ghost use Rattle.std.specs.Prelude.{◌≡◌, ◌<◌};
ghost use Rattle.codes.specs.Code.{class_code, kind_code, bit_of};
ghost use Rattle.codes.specs.Refusal.{number_of};
ghost use Rattle.codes.specs.Read.{policy_of, control_of, license_of, sideband_of, kind_of, direction_valid, direction_of};

// Four cases, none of them the absence of another.
#[derive(Clone, Copy, PartialEq, Eq)]
pub enum Policy {
    Unset,
    NoProfile,
    Rules,
    Broken,
}

// How the station is controlled (47 CFR 97.3(a)(6), (39); 97.109).
#[derive(Clone, Copy, PartialEq, Eq)]
pub enum ControlMode {
    Local,
    Remote,
    Automatic,
}

// The operator's licence class (97.301).
#[derive(Clone, Copy, PartialEq, Eq)]
pub enum LicenseClass {
    Novice,
    Technician,
    General,
    Advanced,
    Extra,
}

// The sideband that the radio transmits the modem's audio on.
#[derive(Clone, Copy, PartialEq, Eq)]
pub enum Sideband {
    Usb,
    Lsb,
}

// What a transmission is, as the rules class it (97.3(c)).
#[derive(Clone, Copy, PartialEq, Eq)]
pub enum EmissionKind {
    Data,
    Cw,
    Test,
    Nothing,
}

// Who began the exchange: 97.221(c)(1)'s question. Whoever answers another station answers one under local or remote control, or
// one under automatic control.
#[derive(Clone, Copy, PartialEq, Eq)]
pub enum Direction {
    Originate,
    Respond,
    Operator,
    RespondToAutomatic,
}

// Why an input is refused. The number of each is the papers'.
#[derive(Clone, Copy, PartialEq, Eq)]
pub enum Refusal {
    // An image under 92 or over 65,552 bytes, or too many records for one.
    ImageLength,
    // It does not end with the letters.
    Letters,
    // Another edition.
    Edition,
    // A count over 256, or a length or distance that disagrees.
    Counts,
    // A coded byte outside its values, or an unused one that is not zero.
    CodedByte,
    // A figure of the image not finite, above 2^40 in size, or negative zero.
    ImageFigure,
    // A band with low not below high; then such a segment, automatic segment and privilege.
    BandRange,
    SegmentRange,
    AutomaticRange,
    PrivilegeRange,
    // No band or no data segment.
    EmptyTable,
    // A data segment in no band.
    SegmentOutside,
    // A data segment's own limit, and the general one, not above 0.
    OwnLimit,
    GeneralLimit,
    // An edge not finite or above 2^40 in size.
    SignalEdge,
    // Rungs or floor bytes that are not what a ceiling takes.
    Rungs,
    // A code outside its values.
    StationCode,
    // A figure asked, not finite or above its limit.
    StationFigure,
    // Rules, and no image.
    NoImage,
    // Too little room: for rows or an image, a text, a report.
    Rows,
    Text,
    Report,
    // Watts that edition 1 cannot hold.
    Watts,
    // A list of amendments not in forties, or one that names no record.
    Amendments,
    // Too little room for the amended image.
    AmendedRoom,
    // A swap while one waits.
    SecondSwap,
    // A step with no walk open, or an opening while one is.
    Walk,
    // A start below the one before.
    Starts,
    // Runs of unequal length, or too long.
    Runs,
    // No dial from first to last, or too many.
    Stretch,
    // A first or last dial above 2^40 in size.
    FarDial,
    // Any number: no call answers it.
    Other(u8),
}

// What a check says of its input: accepted, or the first refusal.
pub type Checked = Result<(), Refusal>;

impl From<Refusal> for u8 {
    ghost from_gives = { λ r n. n ≡ number_of r };

    fn from(r: Refusal) -> u8 {
        match r {
            Refusal::ImageLength => 1,
            Refusal::Letters => 2,
            Refusal::Edition => 3,
            Refusal::Counts => 4,
            Refusal::CodedByte => 5,
            Refusal::ImageFigure => 6,
            Refusal::BandRange => 7,
            Refusal::SegmentRange => 8,
            Refusal::AutomaticRange => 9,
            Refusal::PrivilegeRange => 10,
            Refusal::EmptyTable => 11,
            Refusal::SegmentOutside => 12,
            Refusal::OwnLimit => 13,
            Refusal::GeneralLimit => 14,
            Refusal::SignalEdge => 15,
            Refusal::Rungs => 16,
            Refusal::StationCode => 20,
            Refusal::StationFigure => 21,
            Refusal::NoImage => 22,
            Refusal::Rows => 23,
            Refusal::Text => 24,
            Refusal::Report => 25,
            Refusal::Watts => 26,
            Refusal::Amendments => 27,
            Refusal::AmendedRoom => 28,
            Refusal::SecondSwap => 29,
            Refusal::Walk => 30,
            Refusal::Starts => 31,
            Refusal::Runs => 32,
            Refusal::Stretch => 33,
            Refusal::FarDial => 34,
            Refusal::Other(n) => n,
        }
    }
}

impl From<u8> for Policy {
    ghost from_gives = { λ code x. x ≡ policy_of code };

    fn from(code: u8) -> Policy {
        match code {
            0 => Policy::Unset,
            1 => Policy::NoProfile,
            2 => Policy::Rules,
            _ => Policy::Broken,
        }
    }
}

// 255 says that a term is absent, which is no error: these are no `TryFrom`, whose error every caller would throw away.
pub fn control_of(code: u8) -> Option<ControlMode>
    ensures { result ≡ control_of code }
{
    match code {
        0 => Some(ControlMode::Local),
        1 => Some(ControlMode::Remote),
        2 => Some(ControlMode::Automatic),
        _ => None,
    }
}

pub fn license_of(code: u8) -> Option<LicenseClass>
    ensures { result ≡ license_of code }
{
    match code {
        0 => Some(LicenseClass::Novice),
        1 => Some(LicenseClass::Technician),
        2 => Some(LicenseClass::General),
        3 => Some(LicenseClass::Advanced),
        4 => Some(LicenseClass::Extra),
        _ => None,
    }
}

pub fn sideband_of(code: u8) -> Option<Sideband>
    ensures { result ≡ sideband_of code }
{
    match code {
        0 => Some(Sideband::Usb),
        1 => Some(Sideband::Lsb),
        _ => None,
    }
}

impl From<u8> for EmissionKind {
    ghost from_gives = { λ code x. x ≡ kind_of code };

    fn from(code: u8) -> EmissionKind {
        match code {
            0 => EmissionKind::Data,
            1 => EmissionKind::Cw,
            2 => EmissionKind::Test,
            _ => EmissionKind::Nothing,
        }
    }
}

// Whether a code is that of a direction.
pub fn direction_valid(code: u8) -> bool
    ensures { result ≡ direction_valid code }
{
    code <= 3
}

impl From<u8> for Direction {
    ghost from_gives = { λ code x. x ≡ direction_of code };

    fn from(code: u8) -> Direction {
        match code {
            0 => Direction::Originate,
            1 => Direction::Respond,
            2 => Direction::Operator,
            _ => Direction::RespondToAutomatic,
        }
    }
}

// The number of a licence class.
impl From<LicenseClass> for u8 {
    ghost from_gives = { λ class n. n ≡ class_code class };

    fn from(class: LicenseClass) -> u8 {
        class as u8
    }
}

// The number of a kind of emission, which is that of its bit.
impl From<EmissionKind> for u8 {
    ghost from_gives = { λ kind n. n ≡ kind_code kind };

    fn from(kind: EmissionKind) -> u8 {
        kind as u8
    }
}

// Bit n of a byte.
pub fn bit(bits: u8, n: u8) -> bool
    requires { n < 8 }
    ensures { result ≡ bit_of bits n }
{
    (bits >> n) % 2 == 1
}

// Whether a set of emissions, by its bits, has a kind.
pub fn has_kind(bits: u8, kind: EmissionKind) -> bool
    ensures { result ≡ bit_of bits (kind_code kind) }
{
    bit(bits, kind.into())
}

// Whether a set of licence classes, by its bits, has a class.
pub fn has_class(bits: u8, class: LicenseClass) -> bool
    ensures { result ≡ bit_of bits (class_code class) }
{
    bit(bits, class.into())
}
