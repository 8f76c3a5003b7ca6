//! Gates of the tests' own, through the commands. They let a worker by only once others have come: so workers that run one
//! after another are late, and so is a hunter that is held until a number of its own, dealt to it beforehand, is claimed.
//! And they count how often the beginning and the end of each number are reported, and keep how many there may be.
ghost use Rattle.std.specs.Prelude.{◌≡◌, true};
ghost use Rattle.thread_jobs.specs.ThreadReports.{MayWork};
ghost use Rattle.workers.specs.Limits.{MayShare};

use commands::{
    Demand, EndsOptions, HuntOptions, LossesOptions, Metered, ScheduleJob, TallyOptions,
};
use schedule::Plan;
use std::alloc::{AllocError, Global};
use std::sync::atomic::{AtomicU64, Ordering};
use std::sync::{Arc, Wait};
use std::test::Fail;
use std::thread::{Threads, yield_now};
use thread_jobs::{Resources, TextReports, share, work};
use workers::Gate;

/// A processor that writes 1 to the only word, x.
const ONE_WRITE: &str = "litmus 1\nline x\ncpu\nmov [x], 1\nend\n";

/// How often a worker looks whether another has come.
const LOOKS: u32 = 16_777_216;

/// Numbers below this one are counted.
const COUNTED: usize = 310;

/// How often each number was reported.
#[derive(Drop)]
struct Times {
    numbers: Vec<AtomicU64>,
}

impl Times {
    /// No number was reported yet.
    fn new(alloc: Global) -> Result<Times, AllocError> {
        let mut numbers = Vec::new(alloc);
        for _ in 0..COUNTED {
            numbers.push(AtomicU64::new(0))?;
        }
        Ok(Times { numbers })
    }

    /// Counts a number, and answers how often it was reported before.
    fn count(&self, number: usize) -> u64 {
        match self.numbers.get(number) {
            Some(times) => times.fetch_add(1, Ordering::SeqCst),
            None => 0,
        }
    }

    /// How often a number was reported.
    fn of(&self, number: usize) -> u64 {
        match self.numbers.get(number) {
            Some(times) => times.load(Ordering::SeqCst),
            None => 0,
        }
    }

    /// Whether each number from the first on and below this one was reported once, and no other.
    fn is_each_once(&self, first: usize, limit: usize) -> bool {
        for number in 0..self.numbers.len() {
            let is_one = first <= number && number < limit;
            let wanted = if is_one { 1 } else { 0 };
            if self.of(number) != wanted {
                return false;
            }
        }
        true
    }
}

/// How many numbers there may be at most, how often the beginning and the end of each were reported, how many beginnings
/// were, how many workers were held in vain, how often a number ended that had not begun, and how often work began.
#[derive(Drop)]
struct Told {
    all: AtomicU64,
    works: AtomicU64,
    begun: Times,
    ended: Times,
    beginnings: AtomicU64,
    late: AtomicU64,
    early: AtomicU64,
}

impl Told {
    /// Whether work on at most so many numbers began, once.
    fn is_of(&self, all: u64) -> bool {
        self.all.load(Ordering::SeqCst) == all && self.works.load(Ordering::SeqCst) == 1
    }

    /// Whether no worker was held in vain, and no end came before its beginning. From the first number on each was reported
    /// once: the beginnings of those below `begun`, the ends of those below `ended`, and no other.
    fn is_each_once(&self, first: usize, begun: usize, ended: usize) -> bool {
        self.begun.is_each_once(first, begun)
            && self.ended.is_each_once(first, ended)
            && self.late.load(Ordering::SeqCst) == 0
            && self.early.load(Ordering::SeqCst) == 0
    }
}

/// Which workers a gate holds, and until when.
#[derive(Clone, Copy)]
enum Hold {
    /// That of each number, until the gate was told of another one: of the one at the number's place, if there is such a
    /// place. One whose own number is there is not held.
    Until(&'static [usize]),
    /// That of the number that the gate is told of first, until it was told of so many.
    First(u64),
}

/// The gate that holds these workers.
#[derive(Drop)]
struct Holding {
    told: Arc<Told, Global>,
    hold: Hold,
}

impl Holding {
    /// It was told nothing yet.
    fn new(alloc: Global, hold: Hold) -> Result<Holding, AllocError> {
        let begun = Times::new(alloc)?;
        let ended = Times::new(alloc)?;
        let told = Told {
            all: AtomicU64::new(0),
            works: AtomicU64::new(0),
            begun,
            ended,
            beginnings: AtomicU64::new(0),
            late: AtomicU64::new(0),
            early: AtomicU64::new(0),
        };
        Ok(Holding {
            told: Arc::new(alloc, told)?,
            hold,
        })
    }

    /// Whether the worker of a number is let by, behind so many beginnings of any.
    fn lets_by(&self, number: usize, beginnings: u64) -> bool {
        match self.hold {
            Hold::Until(others) => match others.get(number) {
                Some(other) => self.told.begun.of(*other) > 0,
                None => true,
            },
            Hold::First(count) => {
                beginnings != 0 || self.told.beginnings.load(Ordering::SeqCst) >= count
            }
        }
    }
}

impl Gate for Holding {
    fn begun(&self, all: u64) {
        self.told.all.store(all, Ordering::SeqCst);
        self.told.works.fetch_add(1, Ordering::SeqCst);
    }

    fn claimed(&self, number: u64) {
        let number = number as usize;
        self.told.begun.count(number);
        let beginnings = self.told.beginnings.fetch_add(1, Ordering::SeqCst);
        for _ in 0..LOOKS {
            if self.lets_by(number, beginnings) {
                return;
            }
            yield_now();
        }
        self.told.late.fetch_add(1, Ordering::SeqCst);
    }

    fn ended(&self, number: u64) {
        let number = number as usize;
        let before = self.told.ended.count(number);
        if self.told.begun.of(number) <= before {
            self.told.early.fetch_add(1, Ordering::SeqCst);
        }
    }
}

/// What the schedules have in common.
const PLAN: Plan = Plan {
    seed: 1,
    length: 9,
    crash_after: None,
    lazy: false,
};

/// Whether a command that runs schedules of one write under this gate writes this report.
fn writes<R: Threads + Sync>(
    rt: &R,
    alloc: Global,
    job: &ScheduleJob<'_>,
    gate: Holding,
    report: &str,
) -> bool
    requires workers { MayWork job.now }
{
    let mut program = Metered::new(ONE_WRITE.as_bytes());
    let mut steps = Metered::new("".as_bytes());
    let mut out = Metered::new(Vec::new(alloc));
    let resources = Resources { rt, alloc, gate };
    let status = work::<TextReports, _, _, _, _, _>(
        resources,
        job,
        &mut program,
        &mut steps,
        &mut out,
    ).ok();
    let written = out.into_inner();
    status.is_some() && written.as_slice() == report.as_bytes()
}

/// What the gate was told by a command that runs schedules of one write. None where it writes another report, or where
/// someone has the gate still when it has answered, so that a worker has not ended.
fn told_by<R: Threads + Sync>(
    rt: &R,
    alloc: Global,
    job: &ScheduleJob<'_>,
    hold: Hold,
    report: &str,
) -> Option<Arc<Told, Global>>
    requires workers { MayWork job.now }
{
    let gate = Holding::new(alloc, hold).ok()?;
    let told = Arc::try_clone(&gate.told).ok()?;
    let is_so = writes(rt, alloc, job, gate, report) && Arc::strong_count(&told) == 1;
    is_so.then_some(told)
}

/// A hunt for a schedule that breaks what is demanded, among so many of one write, from number `first` on, by so many
/// workers. Beginnings are reported as far as number `begun`, and ends as far as number `ended`.
#[derive(Clone, Copy)]
struct Hunt {
    demand: Demand<'static>,
    first: u64,
    runs: u64,
    workers: u64,
    hold: Hold,
    begun: usize,
    ended: usize,
    report: &'static str,
}

/// Whether it is so.
fn is_so<R: Threads + Sync>(rt: &R, alloc: Global, asked: Hunt) -> bool
    requires { MayShare asked.workers }
{
    let Hunt { first, runs, .. } = asked;
    let job = ScheduleJob::Hunt(HuntOptions {
        demand: asked.demand,
        schedules: TallyOptions {
            plan: PLAN,
            first,
            runs,
        },
        workers: asked.workers,
        show: false,
        names: false,
        as_steps: false,
        explains_image: false,
    });
    match told_by(rt, alloc, &job, asked.hold, asked.report) {
        Some(told) => told.is_each_once(first as usize, asked.begun, asked.ended),
        None => false,
    }
}

/// What holds at the end of each of these schedules: they persist the write.
const PERSISTED: &str = "persisted x = 1";

/// What holds of all that a crash may leave after each of their turns.
const WRITTEN: &str = "persisted x < 2";

/// Whether it is so of a hunt of ends, and of a hunt of what crashes may leave.
fn are_so<R: Threads + Sync>(rt: &R, alloc: Global, asked: Hunt) -> bool
    requires { MayShare asked.workers }
{
    let ends = Hunt {
        demand: Demand::Cond(PERSISTED),
        ..asked
    };
    let images = Hunt {
        demand: Demand::All(WRITTEN),
        ..asked
    };
    is_so(rt, alloc, ends) && is_so(rt, alloc, images)
}

/// Each of two hunters is held until the other has claimed its number. Then, of four numbers, the one that the gate is told
/// of first is held until it was told of the other three: of two hunters to whom two numbers each were dealt, one would be
/// late.
#[test]
fn hunters_claim_numbers_as_they_go(rt: HostRuntime) {
    let two = Hunt {
        demand: Demand::Cond(PERSISTED),
        first: 0,
        runs: 2,
        workers: 2,
        hold: Hold::Until(&[1, 0]),
        begun: 2,
        ended: 2,
        report: "none\n",
    };
    assert!(rt; are_so(&rt, rt.alloc(), two));
    let four = Hunt {
        runs: 4,
        hold: Hold::First(4),
        begun: 4,
        ended: 4,
        ..two
    };
    assert!(rt; are_so(&rt, rt.alloc(), four));
}

/// Of the schedules from number 2 on the gate is told their numbers, and not how many were claimed before: each of two
/// hunters is held until the other has claimed its number, and then that of number 4 until number 5 is claimed.
#[test]
fn hunters_tell_the_numbers_of_a_range(rt: HostRuntime) {
    let behind = Hunt {
        demand: Demand::Cond(PERSISTED),
        first: 2,
        runs: 4,
        workers: 2,
        hold: Hold::Until(&[0, 1, 3, 2, 5, 5]),
        begun: 6,
        ended: 6,
        report: "none\n",
    };
    assert!(rt; are_so(&rt, rt.alloc(), behind));
}

/// That of each of 16 numbers is held until the last was claimed: so 16 workers come.
const ALL_COME: Hold = Hold::Until(&[15; 16]);

/// Each of 16 hunters is held until the last has claimed its number.
#[test]
fn so_many_workers_hunt(rt: HostRuntime) {
    let sixteen = Hunt {
        demand: Demand::Cond(PERSISTED),
        first: 0,
        runs: 16,
        workers: 16,
        hold: ALL_COME,
        begun: 16,
        ended: 16,
        report: "none\n",
    };
    assert!(rt; are_so(&rt, rt.alloc(), sixteen));
}

/// Two hunters are held until both have claimed a number, and that of number 1 until number 2 is claimed. This the other
/// does when it has reported number 0, whose schedule breaks the condition. So the schedule of number 1 is not run, since a
/// worker tells the gate of its number before that, and no number is claimed after one that is not run. Nor is
/// the end reported of one that is not run.
#[test]
fn hunters_tell_before_they_run(rt: HostRuntime) {
    let ends = Hunt {
        demand: Demand::Cond("persisted x = 0"),
        first: 0,
        runs: 6,
        workers: 2,
        hold: Hold::Until(&[1, 2, 2]),
        begun: 3,
        ended: 1,
        report: "least 0\n",
    };
    assert!(rt; is_so(&rt, rt.alloc(), ends));
    let images = Hunt {
        demand: Demand::All("persisted x = 0"),
        report: "least 0\nturn 2\nimage 1\n",
        ..ends
    };
    assert!(rt; is_so(&rt, rt.alloc(), images));
}

/// More schedules than a thread takes at a time, and not from number 0 on.
const MANY: TallyOptions = TallyOptions {
    plan: PLAN,
    first: 3,
    runs: 300,
};

/// Whether a command that runs these schedules reports each to the gate once before it runs, and once when it has ended, and
/// writes this report.
fn reports_each_of_many<R: Threads + Sync>(
    rt: &R,
    alloc: Global,
    job: &ScheduleJob<'_>,
    report: &str,
) -> bool
    requires workers { MayWork job.now }
{
    match told_by(rt, alloc, job, Hold::Until(&[]), report) {
        Some(told) => told.is_each_once(3, 303, 303) && told.is_of(300),
        None => false,
    }
}

#[test]
fn each_schedule_of_a_tally_is_reported(rt: HostRuntime) {
    let tally = ScheduleJob::Tally(MANY);
    assert!(rt; reports_each_of_many(&rt, rt.alloc(), &tally, "outcome 300 x=1/1\n"));
    let losses = ScheduleJob::Losses(LossesOptions {
        all: WRITTEN,
        schedules: MANY,
    });
    assert!(rt; reports_each_of_many(&rt, rt.alloc(), &losses, "broken 0 of 300\n"));
    let ends = ScheduleJob::Ends(EndsOptions {
        recovered: false,
        cond: PERSISTED,
        schedules: MANY,
    });
    let counted = "broken 0 of 300\nended 300 of 300\n";
    assert!(rt; reports_each_of_many(&rt, rt.alloc(), &ends, counted));
}

#[test]
fn each_schedule_of_a_hunt_is_reported(rt: HostRuntime) {
    let ends = HuntOptions {
        demand: Demand::Cond(PERSISTED),
        schedules: MANY,
        workers: 3,
        show: false,
        names: false,
        as_steps: false,
        explains_image: false,
    };
    assert!(rt; reports_each_of_many(&rt, rt.alloc(), &ScheduleJob::Hunt(ends), "none\n"));
    // Those that come to their ends run again to be counted, which is not reported.
    let ended = HuntOptions {
        demand: Demand::Ends(PERSISTED),
        ..ends
    };
    let counted = "none\nended 300 of 300\n";
    assert!(rt; reports_each_of_many(&rt, rt.alloc(), &ScheduleJob::Hunt(ended), counted));
    let images = HuntOptions {
        demand: Demand::All(WRITTEN),
        ..ends
    };
    assert!(rt; reports_each_of_many(&rt, rt.alloc(), &ScheduleJob::Hunt(images), "none\n"));
}

/// The report of these steps of one write, by so many threads.
fn report<R: Threads + Wait + Sync>(
    rt: &R,
    alloc: Global,
    steps: &str,
    threads: u32,
    hold: Hold,
    count: usize,
) -> Option<String>
    requires { MayShare threads }
{
    let gate = Holding::new(alloc, hold).ok()?;
    let told = Arc::try_clone(&gate.told).ok()?;
    let mut program = Metered::new(ONE_WRITE.as_bytes());
    let mut steps = Metered::new(steps.as_bytes());
    let mut out = Metered::new(Vec::new(alloc));
    let resources = Resources { rt, alloc, gate };
    let status = share::<TextReports, _, _, _, _, _>(
        resources,
        threads,
        &mut program,
        &mut steps,
        &mut out,
    ).ok();
    let is_so = status.is_some()
        && told.is_each_once(0, count, count)
        && Arc::strong_count(&told) == 1;
    drop(told);
    is_so.then_some(String::from_utf8(out.into_inner()).ok()?)
}

/// What the reports below have at their ends: one thread made the write.
const END: &str =
    "\nturns 1\ncrashes 0\ncpu 0 main 1 halted zf 0\n  buf 0 W x 1\nword x coherent 0 persisted 0\n";

/// 16 threads come to their steps at the same time, and make them in one order or another.
#[test]
fn so_many_threads_come_at_once(rt: HostRuntime) -> Result<(), Fail> {
    let steps = "exec 0\nexec 0\nexec 0\nexec 0\nexec 0\nexec 0\nexec 0\nexec 0
exec 0\nexec 0\nexec 0\nexec 0\nexec 0\nexec 0\nexec 0\nexec 0\n";
    let text = report(&rt, rt.alloc(), steps, 16, ALL_COME, 16);
    let text = text.ok_or("no report")?;
    assert!(rt; text.as_str().starts_with("journal 16\n0 "));
    assert!(rt; text.as_str().ends_with(END));
    Ok(())
}

/// Three threads report each of their two steps once before it is made, and once after that: while the first two are held, the third
/// makes its first one, so that this one is the journal's first.
#[test]
fn held_threads_come_later(rt: HostRuntime) -> Result<(), Fail> {
    let steps = "exec 0\nexec 0\nexec 2\nexec 0\nexec 0\nexec 2\n";
    let text = report(&rt, rt.alloc(), steps, 3, Hold::Until(&[5, 5]), 6);
    let text = text.ok_or("no report")?;
    assert!(rt;
        text.as_str()
            .starts_with("journal 6\n0 2 exec 2: M2 NoCpu\n")
    );
    assert!(rt; text.as_str().ends_with(END));
    Ok(())
}
