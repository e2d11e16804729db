// The two kinds of observations in words: which one a data line is, and what each may hold.
use crate::elements;
use std::io;

// Prints which kind an observation is, and why, from the first element that makes it radar, if one does.
pub(crate) fn print_kind(rt: &impl Print, radar: Option<usize>) -> io::Result<()> {
    match radar {
        Some(element) => {
            print!(rt; "radar, since it has ")?;
            elements::print_name(rt, element)?;
            println!(rt; ".")
        }
        None => println!(rt;
            "optical, since it has none of trx, rcv, delay, rmsDelay, doppler, rmsDoppler, frq and com."
        ),
    }
}

// Prints what an optical observation must hold.
pub(crate) fn print_optical(rt: &impl Print) -> io::Result<()> {
    println!(rt;
        "An optical observation has mode, stn, obsTime, ra, dec and astCat, and one of permID, provID, artSat and trkSub."
    )
}

// Prints what a radar observation must hold.
pub(crate) fn print_radar(rt: &impl Print) -> io::Result<()> {
    println!(rt;
        "A radar observation has permID or provID, obsTime, trx, rcv, frq and com, and either delay and rmsDelay or doppler and rmsDoppler."
    )
}

// Prints what is foreign to a radar observation.
pub(crate) fn print_foreign(rt: &impl Print) -> io::Result<()> {
    println!(rt;
        "A radar observation has none of artSat, trkSub, mode, stn, sys, ctr, pos1, pos2, pos3, rmsTime, ra, dec, rmsRA, rmsDec, rmsCorr,\n\
         astCat, mag, rmsMag, band, photCat, photAp and posCov11 to posCov33; with doppler no delay and no rmsDelay; without doppler no rmsDoppler."
    )
}
