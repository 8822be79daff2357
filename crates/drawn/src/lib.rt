// Pictures as SVG text, with a few shapes. Lengths are counted in whole tenths of a pixel, so that the same picture is the same bytes on every machine.
#![tactic(auto)]

// Pictures that are being drawn, with a few shapes.
pub mod svg;
