// Names that are no element's of this box: what may have been meant.
ghost use Rattle.std.specs.Prelude.{◌≡◌};
ghost use Rattle.std.specs.List.{list_any};
ghost use Rattle.text.specs.Part.{same};

use crate::elements;
use std::io;
use suggestion::suggested;
use text::part::same;
use words::print;

// The names of the elements that ADES has and this box does not take.
static OUTSIDE: [&str; 56] = [
    "trkID",
    "trkMPC",
    "vel1",
    "vel2",
    "vel3",
    "raStar",
    "decStar",
    "obsCenter",
    "deltaRA",
    "deltaDec",
    "dist",
    "pa",
    "rmsDist",
    "rmsPA",
    "fltr",
    "nucMag",
    "logSNR",
    "shapeOcc",
    "seeing",
    "exp",
    "rmsFit",
    "nStars",
    "ref",
    "disc",
    "subFrm",
    "subFmt",
    "precTime",
    "precRA",
    "precDec",
    "uncTime",
    "deprecated",
    "localUse",
    "orbProd",
    "orbID",
    "resRA",
    "resDec",
    "selAst",
    "sigRA",
    "sigDec",
    "sigCorr",
    "sigTime",
    "biasRA",
    "biasDec",
    "biasTime",
    "photProd",
    "resMag",
    "selPhot",
    "sigMag",
    "biasMag",
    "photMod",
    "resDelay",
    "selDelay",
    "sigDelay",
    "resDoppler",
    "selDoppler",
    "sigDoppler",
];

// Prints what a name that is no element's may stand for: an ADES element outside this box's scope, or a slip; nothing where it is neither.
pub fn print_hint(rt: &impl Print, name: &[u8]) -> io::Result<()> {
    if is_one_of(name, &OUTSIDE) {
        print::bytes(rt, name)?;
        println!(rt; " is an ADES element outside this box's scope.")?;
    } else if let Some(element) = suggested(name) {
        print!(rt; "Is ")?;
        elements::print_name(rt, element)?;
        println!(rt; " meant?")?;
    }
    Ok(())
}

// Whether a name is one of a list.
fn is_one_of(name: &[u8], names: &[&'static str]) -> bool
    ensures { result ≡ list_any (λ one. same one.now name.now) names.now }
{
    names.iter().any(|one| same(one.as_bytes(), name))
}
