// The tables, by the code of the refusal.
mod calls;
mod control;
mod drawers;
mod forms;
mod given;
mod marks;
mod members;
mod modern;
mod names;
mod rest;
mod takes;
mod tokens;
mod types;

use around_place::Row;
use calls::{calls_1, calls_2, calls_3, calls_4, calls_5, calls_6, calls_7, calls_8};
use control::{control_1, control_2, control_3, control_4, control_5, control_6, control_7};
use drawers::{
    drawers_1, drawers_2, drawers_3, drawers_4, drawers_5, pictures_1, pictures_2, pictures_3,
};
use forms::{
    forms_1, forms_2, forms_3, forms_4, forms_5, forms_6, forms_7, forms_8, forms_9, forms_10,
};
use given::{doubled, ended, given_1, given_2, given_3, heads, methods};
use marks::{bodies, marks_1, marks_2, marks_3, marks_4, marks_5};
use members::{includes, members_1, members_2, members_3};
use modern::{modern_1, modern_2, modern_3, modern_4, modern_5, modern_6};
use names::{
    names_1, names_2, names_3, names_4, names_5, names_6, names_7, names_8, names_9, names_10,
    names_11,
};
use rest::{captured, handlers_1, handlers_2, twice, untold};
use takes::{takes_1, takes_2, takes_3};
use tokens::{characters_1, characters_2, numbers, texts};
use types::{orders, types_1, types_2, types_3, types_4, types_5, types_6};

/// Tables, one behind the other.
pub type Rows = [&'static [Row]; 30];

/// Code 6: what is written otherwise.
fn of_syntax() -> Rows {
    [
        modern_1(),
        modern_2(),
        modern_3(),
        modern_4(),
        modern_5(),
        modern_6(),
        control_1(),
        control_2(),
        control_3(),
        control_4(),
        control_5(),
        control_6(),
        control_7(),
        bodies(),
        forms_1(),
        forms_2(),
        forms_3(),
        forms_4(),
        forms_5(),
        forms_6(),
        forms_7(),
        forms_8(),
        forms_9(),
        forms_10(),
        marks_1(),
        marks_2(),
        marks_3(),
        marks_4(),
        marks_5(),
        &[],
    ]
}

/// Code 8: names that are not known.
fn of_names() -> Rows {
    [
        members_1(),
        members_2(),
        members_3(),
        pictures_1(),
        pictures_2(),
        pictures_3(),
        drawers_1(),
        drawers_2(),
        drawers_3(),
        drawers_4(),
        drawers_5(),
        calls_1(),
        calls_2(),
        calls_3(),
        calls_4(),
        calls_5(),
        calls_6(),
        calls_7(),
        calls_8(),
        names_1(),
        names_2(),
        names_3(),
        names_4(),
        names_5(),
        names_6(),
        names_7(),
        names_8(),
        names_9(),
        names_10(),
        names_11(),
    ]
}

/// Code 11: types that do not fit.
fn of_types() -> Rows {
    [
        heads(),
        given_1(),
        given_2(),
        given_3(),
        takes_1(),
        takes_2(),
        takes_3(),
        orders(),
        types_1(),
        types_2(),
        types_3(),
        types_4(),
        types_5(),
        types_6(),
        methods(),
        &[],
        &[],
        &[],
        &[],
        &[],
        &[],
        &[],
        &[],
        &[],
        &[],
        &[],
        &[],
        &[],
        &[],
        &[],
    ]
}

/// Up to three tables alone.
fn few(first: &'static [Row], second: &'static [Row], third: &'static [Row]) -> Rows {
    let mut tables: Rows = [&[]; 30];
    tables[0] = first;
    tables[1] = second;
    tables[2] = third;
    tables
}

/// The rows of a code, in order: those of one table behind those of another.
pub fn rows_of(code: u32) -> Rows {
    match code {
        3 => few(includes(), characters_1(), characters_2()),
        4 => few(numbers(), &[], &[]),
        5 => few(texts(), &[], &[]),
        6 => of_syntax(),
        8 => of_names(),
        9 => few(twice(), doubled(), &[]),
        10 => few(captured(), &[], &[]),
        11 => of_types(),
        12 => few(ended(), untold(), &[]),
        13 => few(handlers_1(), handlers_2(), &[]),
        _ => few(&[], &[], &[]),
    }
}
