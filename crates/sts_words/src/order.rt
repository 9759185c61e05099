// What the words may ask for.

/// What the words ask for. Names are those of files; a budget is a number of instructions, from 1 to 2147483648.
#[derive(Clone, Copy, Drop)]
pub enum Order<'a> {
    /// Check the program of that name.
    Check(&'a str),
    /// Build the program of that name.
    Build(&'a str),
    /// Build the program of that name and run it, on the script of that name or on none, within a budget; with statistics, and
    /// with the image behind them.
    Run {
        program: &'a str,
        script: Option<&'a str>,
        budget: u32,
        stats: bool,
        image: bool,
    },
    /// Run the image of that name, on the script of that name or on none, within a budget.
    RunHex {
        image: &'a str,
        script: Option<&'a str>,
        budget: u32,
    },
    /// Build the program of that name and run it on the script of that name, with the arrivals of that name, within a budget.
    RunAt {
        program: &'a str,
        script: &'a str,
        arrivals: &'a str,
        budget: u32,
    },
    /// Run the class that the file of that name stands for, each of its boards within a budget.
    Class {
        name: &'a str,
        budget: u32,
    },
    /// Build the generated program of that size, 1 to 200, and run it within a budget; with statistics.
    Big {
        size: u32,
        budget: u32,
        stats: bool,
    },
}
