// The results as a picture, after the paper's Figure 6: the share of schedulable task sets over utilisation, a line for each method. Lines differ in dashes and
// markers, so that they can be told apart without their colours.

use crate::figures::{Digits, decimal};
use crate::task_sets::CONFIGURATION;
use crate::{PAPER_BREAKDOWN, Results, utilisation};
use drawn::svg::{Picture, Place, Tenths};
use std::alloc::{AllocError, Global};
use std::fmt::Write;
use std::num::{nearest_i64_to_f64, saturating_f64_to_i64};

type Done = Result<(), AllocError>;

const WIDTH: Tenths = 9600;

const HEIGHT: Tenths = 5500;

// the plot's edges
const LEFT: Tenths = 700;

const RIGHT: Tenths = 6100;

const TOP: Tenths = 950;

const BOTTOM: Tenths = 4850;

// the legend's columns
const SAMPLE: Tenths = 6400;

const NAME: Tenths = 6980;

const HERE: Tenths = 8750;

const PAPER: Tenths = 9350;

const GREY: &str = "#595959";

const END: &str = "text-anchor=\"end\"";

const NOTES: [&str; 4] = [
    "Listed from best to worst over all utilisations.",
    "Paper: Altmeyer, Davis and Maiza, Table III. Of",
    "its Figure 6, Simulation-UB and Staschulat are",
    "not drawn.",
];

#[derive(Clone, Copy)]
enum Marker {
    Disc,
    Square,
    Triangle,
    Diamond,
    TriangleDown,
    Cross,
}

// How the line of a method is drawn, and what the legend calls it.
#[derive(Clone, Copy)]
struct Look {
    method: usize,
    name: &'static str,
    dashes: &'static str,
    marker: Marker,
}

// The look at a place, from the best to the worst, where all goes as in the paper.
fn look_at(place: usize) -> Look {
    match place {
        0 => Look {
            method: 0,
            name: "no pre-emption cost",
            dashes: "none",
            marker: Marker::Disc,
        },
        1 => Look {
            method: 5,
            name: "combined",
            dashes: "11 3",
            marker: Marker::Square,
        },
        2 => Look {
            method: 4,
            name: "ECB-Union",
            dashes: "2 2.5",
            marker: Marker::Triangle,
        },
        3 => Look {
            method: 3,
            name: "UCB-Union",
            dashes: "9 3 2 3",
            marker: Marker::Diamond,
        },
        4 => Look {
            method: 2,
            name: "UCB-only",
            dashes: "5 3",
            marker: Marker::TriangleDown,
        },
        _ => Look {
            method: 1,
            name: "ECB-only",
            dashes: "12 3 2 3 2 3",
            marker: Marker::Cross,
        },
    }
}

// The picture as SVG.
pub fn picture(alloc: Global, results: &Results) -> Result<String, AllocError> {
    let mut picture = Picture::new(
        alloc,
        WIDTH,
        HEIGHT,
        "Share of task sets found schedulable, by utilisation and method",
    )?;
    heading(alloc, &mut picture, results)?;
    axes(alloc, &mut picture)?;
    let totals = totals(results);
    // the best last, so that it lies on top where lines meet
    for rank in (0..methods::COUNT).rev() {
        let look = best(&totals, rank);
        let places = places(alloc, results, look.method)?;
        let stroke = look.stroke(alloc)?;
        picture.path(places.as_slice(), stroke.as_str())?;
        for place in &places {
            look.mark(alloc, &mut picture, *place)?;
        }
    }
    legend(alloc, &mut picture, results, &totals)?;
    picture.finished()
}

// How many task sets the method of each look finds schedulable altogether, as a sum of shares.
fn totals(results: &Results) -> [f64; methods::COUNT] {
    let mut totals = [0.0; methods::COUNT];
    for (place, total) in totals.iter_mut().enumerate() {
        for shares in &results.shares {
            *total = *total + share_of(shares, look_at(place).method);
        }
    }
    totals
}

fn share_of(shares: &[f64; methods::COUNT], method: usize) -> f64 {
    shares.get(method).copied().unwrap_or(0.0)
}

// How many looks are better than the one at a place, or as good and stand before it.
fn rank_of(totals: &[f64; methods::COUNT], place: usize) -> usize {
    let own = share_of(totals, place);
    let mut rank = 0usize;
    for (other, total) in totals.iter().enumerate() {
        if own < *total || (other < place && *total == own) {
            rank = rank.saturating_add(1);
        }
    }
    rank
}

// The look of a rank: the best is that of rank 0.
fn best(totals: &[f64; methods::COUNT], rank: usize) -> Look {
    for place in 0..methods::COUNT {
        if rank_of(totals, place) == rank {
            return look_at(place);
        }
    }
    look_at(rank)
}

fn heading(alloc: Global, picture: &mut Picture, results: &Results) -> Done {
    picture.text(
        Place::new(LEFT, 300),
        "font-size=\"18\" font-weight=\"bold\"",
        "Task sets found schedulable, by method",
    )?;
    let style = format!(in alloc; "font-size=\"12.5\" fill=\"{GREY}\"")?;
    let words = format!(in alloc; "Base configuration: {CONFIGURATION}")?;
    picture.text(Place::new(LEFT, 530), style.as_str(), words.as_str())?;
    let (sets, seed) = (
        wording::number(alloc, results.setting.sets)?,
        results.setting.seed,
    );
    let words = format!(in alloc; "Random task sets at each utilisation: {sets}; seed {seed}")?;
    picture.text(Place::new(LEFT, 720), style.as_str(), words.as_str())
}

// How far to the right a utilisation stands.
fn across(thousandths: u64) -> Tenths {
    let thousandths = Tenths::try_from(thousandths).unwrap_or(0);
    ((RIGHT - LEFT).saturating_mul(thousandths) / 1000).saturating_add(LEFT)
}

// How far down a share stands.
fn up(share: f64) -> Tenths {
    let height = share * nearest_i64_to_f64(BOTTOM - TOP) + 0.5;
    BOTTOM.saturating_sub(saturating_f64_to_i64(height))
}

fn places(alloc: Global, results: &Results, method: usize) -> Result<Vec<Place>, AllocError> {
    let mut places = Vec::new(alloc);
    for (shares, place) in results.shares.iter().zip(0u64..) {
        let x = across(utilisation(place));
        places.push(Place::new(x, up(share_of(shares, method))))?;
    }
    Ok(places)
}

fn axes(alloc: Global, picture: &mut Picture) -> Done {
    for fifth in 0..=5i64 {
        share_line(alloc, picture, fifth)?;
    }
    for tenth in 0..=10u64 {
        utilisation_line(alloc, picture, tenth)?;
    }
    picture.path(
        &[
            Place::new(LEFT, TOP),
            Place::new(LEFT, BOTTOM),
            Place::new(RIGHT, BOTTOM),
        ],
        "stroke=\"black\"",
    )?;
    picture.text(
        Place::new((LEFT + RIGHT) / 2, BOTTOM + 450),
        "text-anchor=\"middle\" font-size=\"13\"",
        "Utilisation of the task set, without pre-emption costs",
    )?;
    // turned round, so the places are, too
    picture.text(
        Place::new(-(TOP + BOTTOM) / 2, 190),
        "text-anchor=\"middle\" font-size=\"13\" transform=\"rotate(-90)\"",
        "Share of task sets found schedulable",
    )
}

fn share_line(alloc: Global, picture: &mut Picture, fifth: i64) -> Done {
    let percent = fifth.saturating_mul(20);
    let y = up(nearest_i64_to_f64(percent) / 100.0);
    let left = Place::new(LEFT, y);
    picture.line(left, Place::new(RIGHT, y), "stroke=\"#dddddd\"")?;
    picture.line(left.moved(-50, 0), left, "stroke=\"black\"")?;
    let words = format!(in alloc; "{percent} %")?;
    picture.text(left.moved(-90, 43), END, words.as_str())
}

fn utilisation_line(alloc: Global, picture: &mut Picture, tenth: u64) -> Done {
    let x = across(tenth.saturating_mul(100));
    let bottom = Place::new(x, BOTTOM);
    picture.line(Place::new(x, TOP), bottom, "stroke=\"#eeeeee\"")?;
    picture.line(bottom, bottom.moved(0, 50), "stroke=\"black\"")?;
    let (whole, rest) = (tenth / 10, tenth % 10);
    let words = format!(in alloc; "{whole}.{rest}")?;
    picture.text(
        bottom.moved(0, 200),
        "text-anchor=\"middle\"",
        words.as_str(),
    )
}

// The lines of the legend, of which this is the first.
const LEGEND: Tenths = TOP + 100;

const LOOK_STEP: Tenths = 260;

const NOTE_STEP: Tenths = 180;

fn legend(
    alloc: Global,
    picture: &mut Picture,
    results: &Results,
    totals: &[f64; methods::COUNT],
) -> Done {
    picture.text(
        Place::new(PAPER, LEGEND),
        END,
        "average breakdown utilisation",
    )?;
    let mut y = LEGEND + NOTE_STEP;
    picture.text(Place::new(SAMPLE, y), "font-weight=\"bold\"", "Method")?;
    picture.text(Place::new(HERE, y), END, "here")?;
    picture.text(Place::new(PAPER, y), END, "paper")?;
    for rank in 0..methods::COUNT {
        y = y.saturating_add(LOOK_STEP);
        best(totals, rank).explain(alloc, picture, results, y)?;
    }
    y = y.saturating_add(150);
    let style = format!(in alloc; "fill=\"{GREY}\"")?;
    for note in NOTES {
        y = y.saturating_add(NOTE_STEP);
        picture.text(Place::new(SAMPLE, y), style.as_str(), note)?;
    }
    Ok(())
}

impl Look {
    fn colour(self) -> &'static str {
        methods::colour_by_number(self.method)
    }

    fn stroke(self, alloc: Global) -> Result<String, AllocError> {
        let (colour, dashes) = (self.colour(), self.dashes);
        format!(in alloc;
            "stroke=\"{colour}\" stroke-width=\"1.6\" stroke-dasharray=\"{dashes}\" stroke-linejoin=\"round\""
        )
    }

    // The line of the legend.
    fn explain(self, alloc: Global, picture: &mut Picture, results: &Results, y: Tenths) -> Done {
        let line = Place::new(SAMPLE, y).moved(0, -42);
        let stroke = self.stroke(alloc)?;
        picture.path(&[line, line.moved(480, 0)], stroke.as_str())?;
        self.mark(alloc, picture, line.moved(240, 0))?;
        picture.text(Place::new(NAME, y), "", self.name)?;
        let here = decimal(
            alloc,
            share_of(&results.breakdown, self.method),
            Digits::Three,
        )?;
        picture.text(Place::new(HERE, y), END, here.as_str())?;
        let paper = decimal(alloc, share_of(&PAPER_BREAKDOWN, self.method), Digits::Two)?;
        picture.text(Place::new(PAPER, y), END, paper.as_str())
    }

    // The marker at a place.
    fn mark(self, alloc: Global, picture: &mut Picture, at: Place) -> Done {
        let colour = self.colour();
        let full = format!(in alloc; "fill=\"{colour}\"")?;
        let full = full.as_str();
        match self.marker {
            Marker::Disc => picture.circle(at, 34, full),
            Marker::Square => picture.rectangle(at.moved(-31, -31), 62, 62, full),
            Marker::Triangle => {
                let hollow = hollow(alloc, colour)?;
                picture.polygon(
                    &[at.moved(0, -43), at.moved(40, 28), at.moved(-40, 28)],
                    hollow.as_str(),
                )
            }
            Marker::Diamond => picture.polygon(
                &[
                    at.moved(0, -44),
                    at.moved(40, 0),
                    at.moved(0, 44),
                    at.moved(-40, 0),
                ],
                full,
            ),
            Marker::TriangleDown => {
                let hollow = hollow(alloc, colour)?;
                picture.polygon(
                    &[at.moved(0, 43), at.moved(40, -28), at.moved(-40, -28)],
                    hollow.as_str(),
                )
            }
            Marker::Cross => {
                let thin = format!(in alloc; "stroke=\"{colour}\" stroke-width=\"1.6\"")?;
                picture.line(at.moved(-34, -34), at.moved(34, 34), thin.as_str())?;
                picture.line(at.moved(-34, 34), at.moved(34, -34), thin.as_str())
            }
        }
    }
}

fn hollow(alloc: Global, colour: &str) -> Result<String, AllocError> {
    format!(in alloc; "fill=\"white\" stroke=\"{colour}\" stroke-width=\"1.4\"")
}
