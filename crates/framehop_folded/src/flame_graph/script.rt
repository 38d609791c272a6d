//! The script of a picture.

/// A script with which a browser shows a box as wide as the picture after a click on it, and marks the boxes whose names a
/// regular expression finds, which is typed into a field (Ctrl-F); a click on the root, or Escape, shows all again. The
/// field is made by the script, so that the picture has none where scripts are not run.
///
/// It reads the boxes as they are drawn: a `g` each, of a title, a rectangle and a label.
pub const ZOOM_AND_SEARCH: &str = r#"
"use strict";
{
  const svg = document.currentScript.parentNode, space = svg.namespaceURI, round = Math.round;
  const boxes = Array.from(svg.querySelectorAll("g"), group => {
    const rect = group.querySelector("rect"), number = name => round(100 * rect.getAttribute(name));
    const [, name, count] = /^([^]*) \((\d+) sample/.exec(group.querySelector("title").textContent);
    const left = number("x"), top = number("y") / 100;
    return { group, rect, name, count: Number(count), left, right: left + number("width"), top, fill: rect.getAttribute("fill") };
  });
  const root = boxes[0];
  const depthOf = box => Math.abs(box.top - root.top);
  const element = (name, attributes, parent) => {
    const made = document.createElementNS(space, name);
    for (const key in attributes) made.setAttribute(key, attributes[key]);
    return parent.appendChild(made);
  };

  // Draws a box from `left` to `right`, in hundredths of a pixel, with as much of its name as fits.
  function place(box, left, right) {
    box.rect.setAttribute("x", left / 100);
    box.rect.setAttribute("width", (right - left) / 100);
    const fit = Math.floor((right - left - 600) / 725), letters = Array.from(box.name);
    const old = box.group.querySelector("text");
    if (old) old.remove();
    if (fit < 3) return;
    const label = element("text", { x: left / 100 + 3, y: box.top + 12 }, box.group);
    label.textContent = letters.length <= fit ? box.name : letters.slice(0, fit - 2).join("") + "..";
  }

  // Shows a box as wide as the picture, with those that it is of and those that are of it.
  function zoom(to) {
    const scale = 120000 / (to.right - to.left), at = x => round((x - to.left) * scale);
    for (const box of boxes) {
      const deeper = depthOf(box) >= depthOf(to);
      const within = deeper && to.left <= box.left && box.right <= to.right;
      const around = !deeper && box.left <= to.left && to.right <= box.right;
      box.group.setAttribute("display", within || around ? "inline" : "none");
      box.group.setAttribute("opacity", around ? 0.6 : 1);
      if (within) place(box, at(box.left), at(box.right));
      else if (around) place(box, 0, 120000);
    }
  }

  // Marks the boxes whose names a regular expression finds, or which have a text that is none; says how much they are of all.
  function mark(text) {
    let found = name => name.includes(text), count = 0, end = 0;
    try { const pattern = new RegExp(text); found = name => pattern.test(name); } catch (error) {}
    for (const box of boxes) {
      const marked = text !== "" && found(box.name);
      box.rect.setAttribute("fill", marked ? "rgb(230,0,230)" : box.fill);
      if (marked && box.left >= end) {
        count += box.count;
        end = box.right;
      }
    }
    told.textContent = text === "" ? "" : (100 * count / root.count).toFixed(2) + "% marked";
  }

  element("style", {}, svg).textContent = "g { cursor: pointer } g:hover rect { stroke: black; stroke-width: 0.5 }";
  const told = element("text", { x: 940, y: 44, "text-anchor": "end" }, svg);
  const frame = element("foreignObject", { x: 950, y: 30, width: 250, height: 22 }, svg);
  const field = frame.appendChild(document.createElementNS("http://www.w3.org/1999/xhtml", "input"));
  field.setAttribute("placeholder", "search (Ctrl-F)");
  field.setAttribute("style", "box-sizing: border-box; width: 100%; height: 100%; font: inherit");
  field.addEventListener("input", () => mark(field.value));
  svg.addEventListener("click", event => {
    const group = event.target.closest("g");
    if (group) zoom(boxes.find(box => box.group === group));
  });
  addEventListener("keydown", event => {
    if ((event.ctrlKey || event.metaKey) && event.key === "f") {
      event.preventDefault();
      field.focus();
      field.select();
    } else if (event.key === "Escape") {
      field.value = "";
      mark("");
      zoom(root);
    }
  });
}
"#;
